// print_selection_table: writes the selection table to standard output, one decimal entry a line, from that
// of the estimate -512/32 to that of 511/32. The entries are worked out by the rule, and not read from the
// table that the library chooses by. Where the text cannot be written, a line on standard error says so, and
// the exit status is 1.
#![tactic(auto)]

use std::io;
use std::io::Write;
use std::process::ExitCode;

// The bytes lent for the text.
const ROOM: usize = 4096;

// Writes the table's text.
fn write_text<W: Write>(out: &mut W) -> io::Result<()> {
    let mut text = [0u8; ROOM];
    let length = table_text::write_table(&mut text).ok();
    match length.and_then(|n| text.get(..n)) {
        Some(lines) => out.write_all(lines),
        None => Err(io::Error::other("no room for the text")),
    }
}

fn main(rt: HostRuntime) -> ExitCode {
    match write_text(&mut io::writer(&rt)) {
        Ok(()) => ExitCode::SUCCESS,
        Err(e) => {
            let _ = eprintln!(rt; "print_selection_table: standard output: {e}");
            ExitCode::FAILURE
        }
    }
}
