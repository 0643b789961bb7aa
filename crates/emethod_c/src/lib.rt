// The library for host tools in other languages: functions over numbers and lent memory, built by
// `rt lib`. emethod.h beside this crate's src/ declares them for C. Each answers one number
// that carries the refusal, the row, a count, of a frame that it loads the scale, and of an evaluation the
// additions, and asks nothing of its caller.
#![tactic(auto)]

ghost use Rattle.std.specs.Prelude.{◌≡◌, ◌++◌, map, ◌+◌, ◌<◌, ◌≤◌, pos, length, get_or, drop};
ghost use Rattle.std.proofs.lemmas.List.Edits.{sets};
ghost use Rattle.job.specs.Header.{Limits};
ghost use Rattle.job.specs.Refused.{number_of, row_of};
ghost use Rattle.frame.specs.Frame.{frame_writer_answer, frame_writer_buffer};
ghost use Rattle.trace.specs.Inner.{digits_from};
ghost use Rattle.state.specs.State.{all_steps, digit_places};
ghost use Rattle.emethod_c.specs.Foreign.{answer_of, counted_answer_of, result_answer, check_answer, Evaluates, header, frame_answer, job_sums_answer, job_sums_list, job_trace_answer, job_trace_buffer, header_words, words_of, word_count, words_answer, words_left, most_words};

use job::{Header, ROWS, Refused};
use state::DIGITS;

const FIELD: usize = 256; // the refusal, the row and the scale have 8 bits each in an answer

const COUNTS: u64 = 65536; // 2^16: the count stands above the refusal and the row

const MOST_COUNT: usize = 16777216; // 2^24: and has 24 bits

const ADDITIONS: u64 = 1099511627776; // 2^40: the additions stand above the count

const MOST_ADDITIONS: usize = 65536; // 2^16: and have 16 bits

const SCALES: u64 = 72057594037927936; // 2^56: the scale has the 8 bits above them

// A refusal and its row in one number.
fn refused(e: Refused) -> u64
    ensures { result ≡ answer_of (number_of e) (row_of e) 0 }
{
    (e.number() % FIELD + FIELD * (e.row() % FIELD)) as u64
}

// What a call that is not refused gives, in one number.
fn accepted(count: usize, additions: usize, scale: usize) -> u64
    ensures { result ≡ counted_answer_of 0 0 count additions scale }
{
    COUNTS * ((count % MOST_COUNT) as u64)
        + ADDITIONS * ((additions % MOST_ADDITIONS) as u64)
        + SCALES * ((scale % FIELD) as u64)
}

// The count, or the refusal and its row, in one number.
fn answer_of_count(r: Result<usize, Refused>) -> u64
    ensures { result ≡ result_answer r }
{
    match r {
        Ok(count) => accepted(count, 0, 0),
        Err(e) => refused(e),
    }
}

// Loads a frame and lets it go.
#[unsafe(no_mangle)]
pub extern "C" fn em_check_frame(frame: &[u8]) -> u64
    ensures { result ≡ check_answer frame.now }
{
    match evaluator::load(frame) {
        Ok(s) => accepted(job::count(s.header), 0, s.scale),
        Err(e) => refused(e),
    }
}

// Loads a frame, advances it by the budget, and writes a reading for each row.
#[unsafe(no_mangle)]
pub extern "C" fn em_evaluate(frame: &[u8], budget: u64, readings: &mut [i64]) -> u64
    ensures { Evaluates frame.now budget readings.old result readings.new }
{
    let budgets = [budget; 1];
    let d = calls::evaluate(frame, &budgets, readings);
    match d.refusal {
        None => accepted(d.made, d.additions, d.scale),
        Some(e) => refused(e),
    }
}

// Writes a frame of the fields and the numbers.
#[unsafe(no_mangle)]
pub extern "C" fn em_write_frame(
    kind: usize,
    code: usize,
    p: usize,
    f: usize,
    n: usize,
    m: usize,
    numbers: &[i64],
    out: &mut [u8],
) -> u64
    ensures value { result ≡ frame_answer (frame_writer_answer (header kind code p f n m) numbers.now (length out.old)) }
    ensures out_after { out.new ≡ frame_writer_buffer (header kind code p f n m) numbers.now out.old }
{
    let h = Header {
        kind,
        code,
        p,
        f,
        n,
        m,
    };
    let w = frame::write_frame(h, numbers, out);
    answer_of_count(w)
}

// Loads a frame, advances it by the budget, and writes the running sums of its columns. An advance that is
// refused, as with budget 0, leaves the state as it is, and that state's sums are written.
#[unsafe(no_mangle)]
pub extern "C" fn em_running_sums(frame: &[u8], budget: u64, words: &mut [i64]) -> u64
    ensures value { result ≡ job_sums_answer frame.now budget (length words.old) }
    ensures words_after { words.new ≡ job_sums_list frame.now budget words.old }
{
    match evaluator::load(frame) {
        Ok(s) => {
            let (t, _) = evaluator::advance(s, budget);
            answer_of_count(running_sums::running_sums(t, words))
        }
        Err(e) => refused(e),
    }
}

// Loads a frame, advances it by the budget, and writes its trace. An advance that is refused, as with
// budget 0, leaves the state as it is, and that state's trace is written.
#[unsafe(no_mangle)]
pub extern "C" fn em_write_trace(frame: &[u8], budget: u64, out: &mut [u8]) -> u64
    ensures value { result ≡ job_trace_answer frame.now budget (length out.old) }
    ensures out_after { out.new ≡ job_trace_buffer frame.now budget out.old }
{
    let s = match evaluator::load(frame) {
        Ok(s) => s,
        Err(e) => return refused(e),
    };
    let (t, _) = evaluator::advance(s, budget);
    match trace::record_of(t) {
        Ok(d) => answer_of_count(trace::write_trace(d, out)),
        Err(e) => refused(e),
    }
}

// One of the first seven words of a trace: the header's fields and the steps made.
fn header_word(h: Header, k: usize, i: usize) -> usize
    requires { i < 7 }
    ensures { result ≡ get_or (header_words h k) i 0 }
{
    let w = [h.kind, h.code, h.p, h.f, h.n, h.m, k];
    w[i]
}

// Puts the first seven words of a trace into the list; the words past them stay.
fn put_header_words(h: Header, k: usize, words: &mut [i64])
    requires { Limits h × (k ≤ all_steps) × (7 ≤ length words.old) }
    ensures { words.new ≡ sets words.old 0 (map pos (header_words h k)) }
{
    for i in 0..7 {
        words[i] = integers::to_signed(header_word(h, k, i) as u64);
    }
}

// Puts n digits, from the place `from` on, into the list from the word `to` on; the other words stay. The
// loop has a fixed end and asks for its row in each turn, so that words are put one by one: several at once
// take longer here.
fn put_step_words(d: &[i8; DIGITS], from: usize, n: usize, words: &mut [i64], to: usize)
    requires { (n ≤ 16) × (from + n ≤ digit_places) × (to + n ≤ length words.old) × (to ≤ most_words) }
    ensures { words.new ≡ sets words.old to (digits_from d.now from n) }
{
    for x in 0..ROWS {
        if x < n {
            words[to + x] = i64::from(d[from + x]);
        }
    }
}

// Puts the words of a record into the list, the digits step by step and in a step row by row; the words
// past them stay.
fn put_words(h: Header, k: usize, d: &[i8; DIGITS], words: &mut [i64])
    requires { Limits h × (k ≤ all_steps) × (word_count h k ≤ length words.old) }
    ensures { words.new ≡ words_of h k d.now ++ drop (word_count h k) words.old }
{
    put_header_words(h, k, words);
    let n = h.n;
    let mut to: usize = 7;
    for j in 0..k {
        put_step_words(d, ROWS * j, n, words, to);
        to += n;
    }
}

// Reads a trace into words.
#[unsafe(no_mangle)]
pub extern "C" fn em_read_trace(trace: &[u8], words: &mut [i64]) -> u64
    ensures value { result ≡ words_answer trace.now (length words.old) }
    ensures words_after { words.new ≡ words_left trace.now words.old }
{
    let t = match trace::read_trace(trace) {
        Ok(t) => t,
        Err(e) => return refused(e),
    };
    let h = t.header;
    let k = t.k;
    let size = 7 + h.n * k;
    if words.len() < size {
        return refused(Refused::TooLittleRoom);
    }
    put_words(h, k, &t.digits, words);
    accepted(size, 0, 0)
}
