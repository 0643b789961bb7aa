// Frames and traces from an independent model, held to what it says of them. Standard input has many of them,
// one after the other: a byte, the number of its bytes in two bytes, most significant first, and its bytes.
// The byte before them is `f` for a frame, `c` for a frame whose columns are shown, `a` for a frame whose
// additions are, or `t` for a trace.
//
// A frame is printed as `edigits` prints it. Of its columns the running sums are printed after 0, 1 and 2
// steps and after all: the steps made, and the words; or `refused`, the number, and the row of a heavy row.
// Its additions are those of each step in turn; one advance of all steps counts as many. A trace is read and
// printed: `refused` and the number; or a line kind, r, p, f, n, m, k, and a line for each step, its number
// and the digits by row. An accepted frame or trace is written again too, and so is the trace of the frame's
// job; a line `differs`, which the model never prints, says where that gives other bytes.
#![tactic(auto)]

use emethod::{Header, Record, Refused, State};
use job::{NUMBERS, ROWS};
use state::DIGITS;
use std::alloc::Global;
use std::io;
use std::io::{BufReader, BufWriter, Read, Write};

// Where the loop ends if the input does not: more vectors than there are.
const MOST: usize = 10000;

// The most words of the running sums: for each of 16 columns its number and 16 sums.
const WORDS: usize = 272;

// The most steps of a job, as a budget for all of them.
const ALL_STEPS: u64 = 60;

// The bytes lent for a frame or a trace that is written again.
const BYTES: usize = 4096;

// The bytes lent for the text of a frame.
const TEXT: usize = 65536;

fn print_newline<W: Write>(out: &mut W) -> io::Result<()> {
    out.write_all(b"\n")
}

fn print_number<W: Write>(out: &mut W, n: usize) -> io::Result<()> {
    write!(out, "{n}")
}

// A space and a natural number.
fn print_field<W: Write>(out: &mut W, n: usize) -> io::Result<()> {
    write!(out, " {n}")
}

// A space and a number with its sign.
fn print_signed<W: Write>(out: &mut W, z: i64) -> io::Result<()> {
    write!(out, " {z}")
}

// The line kind, r, p, f, n, m, k. The codes 0 to 3 stand for the radixes 2, 4, 8, 16.
fn print_header<W: Write>(out: &mut W, h: Header, k: usize) -> io::Result<()> {
    print_number(out, h.kind)?;
    print_field(out, 2usize << ((h.code % 4) as u64))?;
    print_field(out, h.p)?;
    print_field(out, h.f)?;
    print_field(out, h.n)?;
    print_field(out, h.m)?;
    print_field(out, k)?;
    print_newline(out)
}

// The lines of the first k steps: the step's number, from 1, and the digits of its first n rows.
fn print_steps<W: Write>(out: &mut W, digits: &[i8; DIGITS], n: usize, k: usize) -> io::Result<()> {
    for (j, step) in digits.chunks(ROWS).take(k).enumerate() {
        print_number(out, j + 1)?;
        for d in step.iter().take(n) {
            print_signed(out, i64::from(*d))?;
        }
        print_newline(out)?;
    }
    Ok(())
}

// Prints the line that says that bytes differ, where they do.
fn print_differs<W: Write>(out: &mut W, same: bool) -> io::Result<()> {
    if !same {
        out.write_all(b"differs\n")?;
    }
    Ok(())
}

// Whether the trace of a record has the bytes s.
fn writes_trace(t: Record, s: &[u8]) -> bool {
    let mut buf = [0u8; BYTES];
    match emethod::write_trace(t, &mut buf) {
        Ok(length) => buf.get(..length) == Some(s),
        Err(_) => false,
    }
}

// Prints a trace's record, and whether the record has other bytes than the trace.
fn show_record<W: Write>(out: &mut W, t: Record, s: &[u8]) -> io::Result<()> {
    print_header(out, t.header, t.k)?;
    print_steps(out, &t.digits, t.header.n, t.k)?;
    print_differs(out, writes_trace(t, s))
}

// Prints one trace.
fn show_trace<W: Write>(out: &mut W, s: &[u8]) -> io::Result<()> {
    match emethod::read_trace(s) {
        Ok(t) => show_record(out, t, s),
        Err(e) => show_refused(out, e),
    }
}

// Whether the frame of a header and of its numbers, which begin the list, has the bytes s.
fn writes_frame(h: Header, list: &[i64], s: &[u8]) -> bool {
    if h.n < 1 || ROWS < h.n {
        return false;
    }
    let Some(numbers) = list.get(..job::count(h)) else {
        return false;
    };
    let mut buf = [0u8; BYTES];
    match emethod::write_frame(h, numbers, &mut buf) {
        Ok(length) => buf.get(..length) == Some(s),
        Err(_) => false,
    }
}

// Whether the bytes are a trace that, read and written, gives these bytes again.
fn reads_trace(s: &[u8]) -> bool {
    match emethod::read_trace(s) {
        Ok(t) => writes_trace(t, s),
        Err(_) => false,
    }
}

// Puts the trace of a frame's job after all its steps into the buffer, and gives the number of its bytes.
fn put_trace(s: &[u8], buf: &mut [u8]) -> Result<usize, Refused> {
    let (t, _) = emethod::advance(emethod::load(s)?, ALL_STEPS);
    emethod::write_trace(emethod::record_of(t)?, buf)
}

// Whether the trace of a frame's job after all its steps is read and written again as it was.
fn records(s: &[u8]) -> bool {
    let mut buf = [0u8; BYTES];
    let length = put_trace(s, &mut buf).ok();
    match length.and_then(|n| buf.get(..n)) {
        Some(trace) => reads_trace(trace),
        None => false,
    }
}

// Prints one frame. The buffer has room enough.
fn show_frame<W: Write>(alloc: Global, out: &mut W, s: &[u8]) -> io::Result<()> {
    let mut text = vec![in alloc; 0u8; TEXT]?;
    let length = emethod::print_frame(s, &mut text).ok();
    if let Some(lines) = length.and_then(|n| text.get(..n)) {
        out.write_all(lines)?;
    }
    let mut list = [0i64; NUMBERS];
    if let Ok(h) = emethod::read_frame(s, &mut list) {
        print_differs(out, writes_frame(h, &list, s) && records(s))?;
    }
    Ok(())
}

// The line of a state: the steps made, and the words that the call writes. The list has room for all.
fn show_sums<W: Write>(out: &mut W, s: State) -> io::Result<()> {
    let mut list = [0i64; WORDS];
    let count = emethod::running_sums(s, &mut list);
    print_number(out, s.k)?;
    for z in list.iter().take(count.unwrap_or(0)) {
        print_signed(out, *z)?;
    }
    print_newline(out)?;
    print_differs(out, count.is_ok())
}

// The lines of a job: after 0, 1 and 2 steps, which every job has, and after all where there are more.
fn show_job<W: Write>(out: &mut W, s: State) -> io::Result<()> {
    show_sums(out, s)?;
    let (first, _) = emethod::advance(s, 1);
    show_sums(out, first)?;
    let (second, _) = emethod::advance(first, 1);
    show_sums(out, second)?;
    if let (last, Ok(_)) = emethod::advance(second, ALL_STEPS) {
        show_sums(out, last)?;
    }
    Ok(())
}

// The line of a frame that is not loaded, or of a trace that is not read.
fn show_refused<W: Write>(out: &mut W, e: Refused) -> io::Result<()> {
    out.write_all(b"refused")?;
    print_field(out, e.number())?;
    if let Refused::HeavyRow(row) = e {
        print_field(out, row)?;
    }
    print_newline(out)
}

// Prints the columns of one frame.
fn show_columns<W: Write>(out: &mut W, s: &[u8]) -> io::Result<()> {
    match emethod::load(s) {
        Ok(s) => show_job(out, s),
        Err(e) => show_refused(out, e),
    }
}

// A number of the line, with a space before it unless it is the first, which is that of step 1.
fn print_item<W: Write>(out: &mut W, n: usize, k: usize) -> io::Result<()> {
    if 1 < k {
        out.write_all(b" ")?;
    }
    print_number(out, n)
}

// How many additions one advance of all steps counts.
fn all_additions(s: State) -> usize {
    match emethod::advance(s, ALL_STEPS) {
        (_, Ok(steps)) => steps.additions,
        (_, Err(_)) => 0,
    }
}

// The line of a job: the additions of each step, one advance a step, asked for after the last step too. One
// advance of all steps counts as many.
fn show_step_additions<W: Write>(out: &mut W, s: State) -> io::Result<()> {
    let mut sum: usize = 0;
    let mut t = s;
    for _ in 0..ALL_STEPS {
        let (next, answer) = emethod::advance(t, 1);
        if let Ok(steps) = answer {
            print_item(out, steps.additions, next.k)?;
            sum = sum.saturating_add(steps.additions);
        }
        t = next;
    }
    print_newline(out)?;
    print_differs(out, sum == all_additions(s))
}

// Prints the additions of one frame.
fn show_additions<W: Write>(out: &mut W, s: &[u8]) -> io::Result<()> {
    match emethod::load(s) {
        Ok(s) => show_step_additions(out, s),
        Err(e) => show_refused(out, e),
    }
}

// Reads as many bytes as asked for, or as there are.
fn read_front<R: Read>(alloc: Global, input: &mut R, size: usize) -> io::Result<Vec<u8>> {
    let mut bytes = Vec::new(alloc);
    input.take(size as u64).read_to_end(&mut bytes)?;
    Ok(bytes)
}

// Prints the vector of a tag.
fn print_front<W: Write>(alloc: Global, out: &mut W, tag: u8, s: &[u8]) -> io::Result<()> {
    match tag {
        b'f' => show_frame(alloc, out, s),
        b'c' => show_columns(out, s),
        b'a' => show_additions(out, s),
        _ => show_trace(out, s),
    }
}

// Reads and prints one vector; whether there was one.
fn vector<R: Read, W: Write>(alloc: Global, input: &mut R, out: &mut W) -> io::Result<bool> {
    let head = read_front(alloc, input, 3)?;
    match head.as_slice() {
        [tag, high, low] => {
            let size = u16::from_be_bytes([*high, *low]);
            let bytes = read_front(alloc, input, usize::from(size))?;
            print_front(alloc, out, *tag, &bytes)?;
            Ok(true)
        }
        _ => Ok(false),
    }
}

fn main(rt: HostRuntime) -> io::Result<()> {
    let alloc = rt.alloc();
    let mut input = BufReader::new(alloc, rt.reader())?;
    let mut out = BufWriter::new(alloc, io::writer(&rt))?;
    for _ in 0..MOST {
        if !vector(alloc, &mut input, &mut out)? {
            break;
        }
    }
    out.flush()
}
