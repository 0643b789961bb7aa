// Document 01's cases, those of scales and one of the estimate, run and held against the table of
// specs/Table.antt, which is proved of the definitions.
//
// For each row the calls are made, and what they answer and hand out is compared with the row's words, part
// by part. A case that differs has a line with its number, from 1, and what differs first. The last line says
// how many cases there are and how many differ.
#![tactic(auto)]

mod table;

ghost use Rattle.std.specs.Prelude.{◌≡◌, true, ◌+◌, ◌≤◌, ◌<◌, pos, IfOk, IfSome};
ghost use Rattle.frame.specs.Frame.{most_bytes};
ghost use Rattle.cases.specs.Words.{word_at, Said, Listed};

use emethod::{Refused, State};
use job::{NUMBERS, ROWS};
use state::DIGITS;
use std::{fmt, io};
use table::{LINE, Lines, WORDS};

// The bytes of the longest frame and of the longest trace.
const FRAME_BYTES: usize = 1431;

const TRACE_BYTES: usize = 604;

// The bytes of the longest frame, as a word of the table: no size in the table is larger.
const MOST_SIZE: i64 = 1431;

// Past every word of the table: no place goes on from there.
const FAR: usize = 10000;

// What differs first between a run and its row.
#[derive(Clone, Copy)]
enum Part {
    Refusal,
    Row,
    Scale,
    Numbers,
    Digits,
    Readings,
    Trace,
}

impl fmt::Display for Part {
    fn fmt<W: fmt::Write>(&self, f: &mut fmt::Formatter<W>) -> fmt::Result {
        match self {
            Part::Refusal => write!(f, "refusal"),
            Part::Row => write!(f, "row"),
            Part::Scale => write!(f, "scale"),
            Part::Numbers => write!(f, "numbers"),
            Part::Digits => write!(f, "digits"),
            Part::Readings => write!(f, "readings"),
            Part::Trace => write!(f, "trace"),
        }
    }
}

// The word at a place, and 0 past the last.
fn word(t: &Lines, place: usize) -> i64
    ensures { result ≡ word_at t.now place }
{
    if place < WORDS {
        t[place / LINE][place % LINE]
    } else {
        0
    }
}

// A natural number as a word.
fn word_of(n: usize) -> i64
    requires { n ≤ most_bytes }
    ensures { result ≡ pos n }
{
    integers::to_signed(n as u64)
}

// A word as a natural number; 0 for one that is negative or past the bytes of the longest frame, as no size
// and no byte is.
fn natural(z: i64) -> usize
    ensures { result ≤ most_bytes }
{
    if z < 0 || MOST_SIZE < z {
        return 0;
    }
    integers::to_unsigned(z) as usize
}

// Whether the word at a place is the number n.
fn says(t: &Lines, place: usize, n: usize) -> bool
    ensures { result ≡ true → Said t.now place n }
{
    n <= FRAME_BYTES && word(t, place) == word_of(n)
}

// How many words follow, by the word at a place.
fn size(t: &Lines, place: usize) -> usize
    ensures { result ≤ most_bytes }
{
    natural(word(t, place))
}

// The place after a list, which starts with its size.
fn past(t: &Lines, place: usize) -> usize
    ensures { result ≤ 12000 }
{
    if FAR < place {
        return FAR;
    }
    place + 1 + size(t, place)
}

// Whether the list at a place is the first n numbers of v.
fn same_list(t: &Lines, place: usize, v: &[i64], n: usize) -> bool
    requires { place ≤ 20001 }
    ensures { result ≡ true → Listed t.now place v.now n }
{
    if v.len() < n || !says(t, place, n) {
        return false;
    }
    for (i, z) in v[..n].iter().enumerate() {
        if word(t, place + 1 + i) != *z {
            return false;
        }
    }
    true
}

// Holds the refusal at a place and its row, which stands after it, against the call's, 0 and 0 where there is none.
fn check_refusal(t: &Lines, place: usize, refusal: Option<Refused>) -> Result<(), Part>
    requires { place ≤ 12000 }
{
    if !says(t, place, refusal.map_or(0, |e| e.number())) {
        return Err(Part::Refusal);
    }
    if !says(t, place + 1, refusal.map_or(0, |e| e.row())) {
        return Err(Part::Row);
    }
    Ok(())
}

// Whether the refusal and the row at a place are those of the frame reader, and the list after the scale the
// numbers that it hands out, none with a refusal.
fn same_numbers(t: &Lines, place: usize, frame: &[u8]) -> bool
    requires { place ≤ 12000 }
{
    let mut v = [0i64; NUMBERS];
    let header = emethod::read_frame(frame, &mut v);
    if check_refusal(t, place, header.err()).is_err() {
        return false;
    }
    match header {
        Ok(h) if 1 <= h.n && h.n <= ROWS => same_list(t, place + 3, &v, job::count(h)),
        Ok(_) => false,
        Err(_) => same_list(t, place + 3, &v, 0),
    }
}

// A byte as a number with a sign.
fn widened(x: u8) -> i64
    ensures { result ≡ pos x }
{
    word_of(x as usize)
}

// The digits of the row i of the first k steps, and zeros after them.
fn row_digits(d: &[i8; DIGITS], i: usize, k: usize) -> [i64; 60] {
    let mut out = [0i64; 60];
    for (z, step) in out.iter_mut().zip(d.chunks(ROWS)).take(k) {
        *z = step.get(i).map_or(0, |d| i64::from(*d));
    }
    out
}

// The place after the rows of digits, where they are those of the state, n rows of k steps.
fn past_same_digits(t: &Lines, place: usize, d: &[i8; DIGITS], n: usize, k: usize) -> Option<usize>
    requires { place ≤ 12000 }
    ensures { IfSome result (λ p. p ≤ 12001) }
{
    if !says(t, place, n) {
        return None;
    }
    let mut p = place + 1;
    for i in 0..n {
        if !same_list(t, p, &row_digits(d, i, k), k) {
            return None;
        }
        p = past(t, p);
    }
    Some(p)
}

// Whether the list at a place is the readings of the state, none with a refusal.
fn same_readings(t: &Lines, place: usize, s: State) -> bool
    requires { place ≤ 20000 }
{
    let mut v = [0i64; 16];
    match emethod::readings(s, &mut v) {
        Ok(()) => same_list(t, place, &v, s.header.n),
        Err(_) => same_list(t, place, &v, 0),
    }
}

// Puts the bytes of the state's trace into the buffer, and gives their number.
fn put_trace(s: State, out: &mut [u8]) -> Result<usize, Refused> {
    emethod::write_trace(emethod::record_of(s)?, out)
}

// Whether the list at a place is the bytes of the state's trace, none with a refusal.
fn same_trace(t: &Lines, place: usize, s: State) -> bool
    requires { place ≤ 20000 }
{
    let mut out = [0u8; TRACE_BYTES];
    let length = put_trace(s, &mut out).unwrap_or(0);
    same_list(t, place, &out.map(widened), length)
}

// Holds a frame against the row whose refusal stands at the place; the error is what differs first. With a refusal
// the state is idle: its scale is 0, it has no rows and no steps, and no readings and no trace are handed out.
fn check_case(t: &Lines, place: usize, frame: &[u8]) -> Result<(), Part>
    requires { place ≤ 12000 }
{
    let loaded = emethod::load(frame);
    check_refusal(t, place, loaded.err())?;
    let job = loaded.unwrap_or(emethod::idle());
    if !says(t, place + 2, job.scale) {
        return Err(Part::Scale);
    }
    if !same_numbers(t, place, frame) {
        return Err(Part::Numbers);
    }
    let (s, _) = emethod::advance(job, 60);
    let rows = past(t, place + 3);
    let readings = past_same_digits(t, rows, &s.digits, s.header.n, s.k).ok_or(Part::Digits)?;
    if !same_readings(t, readings, s) {
        return Err(Part::Readings);
    }
    if !same_trace(t, past(t, readings), s) {
        return Err(Part::Trace);
    }
    Ok(())
}

// A word as a byte, as all words of a frame are.
fn byte(z: i64) -> u8 {
    (natural(z) % 256) as u8
}

// The frame at a place, as bytes.
fn frame_bytes(t: &Lines, place: usize) -> [u8; FRAME_BYTES]
    requires { place ≤ 20000 }
{
    let n = size(t, place);
    let mut out = [0u8; FRAME_BYTES];
    for (i, b) in out.iter_mut().take(n).enumerate() {
        *b = byte(word(t, place + 1 + i));
    }
    out
}

// Says what differs of a case; how many cases that makes, 1 or 0.
fn report(rt: &impl Print, number: usize, checked: Result<(), Part>) -> io::Result<u64>
    ensures { IfOk result (λ n. n ≤ 1) }
{
    let Err(part) = checked else {
        return Ok(0);
    };
    println!(rt; "case {number} differs: {part}")?;
    Ok(1)
}

// Runs the case whose row starts at the place, with the number of its words.
fn run(rt: &impl Print, t: &Lines, place: usize, number: usize) -> io::Result<u64>
    requires { place ≤ 12000 }
    ensures { IfOk result (λ n. n ≤ 1) }
{
    let n = size(t, place + 1);
    let bytes = frame_bytes(t, place + 1);
    report(rt, number, check_case(t, past(t, place + 1), &bytes[..n]))
}

// Runs all cases; how many differ.
fn run_all(rt: &impl Print, t: &Lines, n: usize) -> io::Result<u64>
    requires { n ≤ 1000 }
{
    let mut differ: u64 = 0;
    let mut place: usize = 0;
    for i in 0..n {
        differ += run(rt, t, place, i + 1)?;
        place = past(t, place);
    }
    Ok(differ)
}

fn main(rt: HostRuntime) -> io::Result<()> {
    let t = table::words();
    let n = table::rows();
    let differ = run_all(&rt, &t, n)?;
    println!(rt; "{n} cases, {differ} differ")
}
