// edigits: reads one frame from standard input and writes its text to standard output, also that of a refused
// frame. Where the input cannot be read or the text cannot be written, a line on standard error says so, and the
// exit status is 1.
//
// The longest frame has 1,431 bytes and the longest text fewer than 32,768, so there is room enough: 4,096 bytes
// are kept of the input, of which any bytes more change nothing (the law cut_text of the printout), and 65,536
// are lent for the text.
#![tactic(auto)]

use anyhow::{Context, Result};
use std::alloc::Global;
use std::io;
use std::io::{Read, Write};
use std::process::ExitCode;

// How many bytes of the input are kept.
const INPUT: u64 = 4096;

// The bytes lent for the text.
const ROOM: usize = 65536;

// The bytes of the input, the first 4,096 of more.
fn read_frame<R: Read + Drop>(alloc: Global, input: R) -> io::Result<Vec<u8>> {
    let mut frame = Vec::new(alloc);
    input.take(INPUT).read_to_end(&mut frame)?;
    Ok(frame)
}

// Writes the text of a frame.
fn write_text<W: Write>(alloc: Global, out: &mut W, frame: &[u8]) -> io::Result<()> {
    let mut text = vec![in alloc; 0u8; ROOM]?;
    let length = emethod::print_frame(frame, &mut text).ok();
    match length.and_then(|n| text.get(..n)) {
        Some(lines) => out.write_all(lines),
        None => Err(io::Error::other("no room for the text")),
    }
}

fn run(rt: &(impl Input + Print + AllocGlobal)) -> Result<()> {
    let frame = read_frame(rt.alloc(), rt.reader()).context("standard input")?;
    write_text(rt.alloc(), &mut io::writer(rt), &frame).context("standard output")
}

fn main(rt: HostRuntime) -> ExitCode {
    match run(&rt) {
        Ok(()) => ExitCode::SUCCESS,
        Err(e) => {
            let _ = eprintln!(rt; "edigits: {e:#}");
            ExitCode::FAILURE
        }
    }
}
