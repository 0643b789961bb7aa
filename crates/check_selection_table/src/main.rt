// check_selection_table: holds printed selection tables, the files named as its arguments, against the table
// that the library chooses by, entry by entry; - names standard input. It prints a line for each: that it is
// the table, or where the two first differ. Where a file cannot be read, a line on standard error says so.
//
// The table's text has fewer than 4,096 bytes, so that the first 4,096 of a longer file tell.
#![tactic(auto)]

use std::alloc::Global;
use std::io::Read;
use std::rt::Files;
use std::{env, fs, io};

// How many bytes of a file are read.
const MOST: u64 = 4096;

// What is said of the first entry that the text has otherwise, at place k: its line, its estimate, and what
// it should be.
fn print_difference(rt: &impl Print, k: usize) -> io::Result<()> {
    let t = selection::table();
    match t.get(k) {
        Some(d) if k < 512 => println!(rt;
            ": line {} differs: the entry for -{}/32 is {d}",
            k + 1,
            512 - k
        ),
        Some(d) => println!(rt;
            ": line {} differs: the entry for {}/32 is {d}",
            k + 1,
            k - 512
        ),
        None => println!(rt; ": more lines than the table's 1024"),
    }
}

// Prints the line of a file: its name, and what came of the comparison, the first entry that differs, if any.
fn print_compared(rt: &impl Print, name: &str, differs: Option<usize>) -> io::Result<()> {
    print!(rt; "{name}")?;
    match differs {
        Some(k) => print_difference(rt, k),
        None => println!(rt; ": the table"),
    }
}

// Says on standard error why a file cannot be read.
fn fail(rt: &impl Eprint, name: &str, e: io::Error) {
    let _ = eprintln!(rt; "{name}: {e}");
}

// The bytes of an open file, the first 4,096 of more.
fn read_text<R: Read + Drop>(alloc: Global, file: R) -> io::Result<Vec<u8>> {
    let mut text = Vec::new(alloc);
    file.take(MOST).read_to_end(&mut text)?;
    Ok(text)
}

// Compares what is read from an open file.
fn check_open(
    rt: &(impl Print + Eprint + AllocGlobal),
    name: &str,
    file: impl Read + Drop,
) -> io::Result<()> {
    match read_text(rt.alloc(), file) {
        Ok(text) => print_compared(rt, name, table_text::compare_table(&text)),
        Err(e) => {
            fail(rt, name, e);
            Ok(())
        }
    }
}

// Compares what an argument names.
fn check_argument<R: Files + Input + Print + Eprint + AllocGlobal>(
    rt: &R,
    name: &str,
) -> io::Result<()> {
    if name == "-" {
        return check_open(rt, name, rt.reader());
    }
    match fs::open(rt, name) {
        Ok(file) => check_open(rt, name, file),
        Err(e) => {
            fail(rt, name, e);
            Ok(())
        }
    }
}

fn main(rt: HostRuntime) -> io::Result<()> {
    let args = env::args(&rt)?;
    if args.len() < 2 {
        let _ = eprintln!(rt; "check_selection_table: no file is named");
    }
    for name in args.skip(1) {
        check_argument(&rt, name.as_str())?;
    }
    Ok(())
}
