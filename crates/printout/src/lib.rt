// The printout of a frame: the lines of document 01's example, put into a lent buffer one after the other.
#![tactic(auto)]

ghost use Rattle.std.specs.Prelude.{◌≡◌, [], ◌∷◌, suc, ◌+◌, ◌*◌, ◌<◌, ◌≤◌, pos, length, get_or};
ghost use Rattle.job.specs.Refusal.{first_refusal};
ghost use Rattle.job.specs.Refused.{number_of, row_of};
ghost use Rattle.state.specs.State.{digits_of, state_checks};
ghost use Rattle.text.specs.Text.{decimal, line, line_end, Written};
ghost use Rattle.printout.specs.Printout.{items_from, header_line, step_lines, readings_line, job_text, refused_text, frame_text, text_room, printed, print_answer, print_buffer};

use job::{Header, Refused};
use state::{DIGITS, State};
use text::Page;

// How many bytes print_frame is lent at least: more than any text takes, which is a header's line of 147
// bytes, 60 lines of 373 and one of 354, at most.
const TEXT_ROOM: usize = 32768;

// p, f, n, m and the scale, each after a space, and the newline. Here and below a number is given 20 digits,
// and a sign.
fn put_fields(page: &mut Page, h: Header, scale: usize)
    requires { page.old.at + 106 ≤ length page.old.out.now }
    ensures { Written page.old (line_end (decimal h.p ∷ decimal h.f ∷ decimal h.n ∷ decimal h.m ∷ decimal scale ∷ [])) page.new }
{
    page.natural_item(h.p as u64);
    page.natural_item(h.f as u64);
    page.natural_item(h.n as u64);
    page.natural_item(h.m as u64);
    page.natural_item(scale as u64);
    page.byte(b'\n');
}

// The line kind, r, p, f, n, m, s.
fn put_header_line(page: &mut Page, h: Header, scale: usize)
    requires { (h.code ≤ 3) × (page.old.at + 147 ≤ length page.old.out.now) }
    ensures { Written page.old (header_line h scale) page.new }
{
    page.decimal(h.kind as u64);
    page.natural_item(job::radix(h.code) as u64);
    put_fields(page, h, scale);
}

// The digits of step t + 1 by row, each after a space, and the newline: at most 16 of 22 bytes.
fn put_digits(page: &mut Page, digits: &[i8; DIGITS], t: usize, n: usize)
    requires { (t < 60) × (n ≤ 16) × (page.old.at + 353 ≤ length page.old.out.now) }
    ensures { Written page.old (line_end (items_from 0 n (digits_of digits.now (suc t)))) page.new }
{
    for i in 0..n {
        page.item(i64::from(digits[16 * t + i]));
    }
    page.byte(b'\n');
}

// The line of step t + 1: its number, and the digits by row.
fn put_step_line(page: &mut Page, digits: &[i8; DIGITS], t: usize, n: usize)
    requires { (t < 60) × (n ≤ 16) × (page.old.at + 373 ≤ length page.old.out.now) }
    ensures { Written page.old (line (decimal (suc t)) (items_from 0 n (digits_of digits.now (suc t)))) page.new }
{
    page.decimal((t + 1) as u64);
    put_digits(page, digits, t, n);
}

// The lines of all steps made: at most 60 of 373 bytes.
fn put_step_lines(page: &mut Page, s: State)
    requires { (s.header.n ≤ 16) × (s.k ≤ 60) × (page.old.at + 22380 ≤ length page.old.out.now) }
    ensures { Written page.old (step_lines s 1 s.k) page.new }
{
    let n = s.header.n;
    let k = s.k;
    for t in 0..k {
        put_step_line(page, &s.digits, t, n);
    }
}

// The first n numbers of y, each after a space, and the newline.
fn put_numbers(page: &mut Page, y: &[i64; 16], n: usize)
    requires { (n ≤ 16) × (page.old.at + 353 ≤ length page.old.out.now) }
    ensures { Written page.old (line_end (items_from 0 n (λ i. get_or y.now i (pos 0)))) page.new }
{
    for i in 0..n {
        page.item(y[i]);
    }
    page.byte(b'\n');
}

// The line of a refused frame: the number, and the row for 8.
fn put_refused_text(page: &mut Page, e: Refused)
    requires { page.old.at + 50 ≤ length page.old.out.now }
    ensures { Written page.old (refused_text (number_of e) (row_of e)) page.new }
{
    page.bytes(b"refused");
    page.natural_item(e.number() as u64);
    if let Refused::HeavyRow(row) = e {
        page.natural_item(row as u64);
    }
    page.byte(b'\n');
}

// The line `=` and the readings, which are not refused.
fn put_readings_line(page: &mut Page, s: State)
    requires { (first_refusal (state_checks s) ≡ 0) × (page.old.at + 354 ≤ length page.old.out.now) }
    ensures { Written page.old (readings_line s) page.new }
{
    let mut y = [0i64; 16];
    let _ = evaluator::readings(s, &mut y);
    page.byte(b'=');
    put_numbers(page, &y, s.header.n);
}

// The lines of a job: the header, the steps made, and the readings.
fn put_job_text(page: &mut Page, s: State)
    requires { (first_refusal (state_checks s) ≡ 0) × (page.old.at + text_room ≤ length page.old.out.now) }
    ensures { Written page.old (job_text s) page.new }
{
    put_header_line(page, s.header, s.scale);
    put_step_lines(page, s);
    put_readings_line(page, s);
}

// The text of the frame s. No job has more than 60 steps, so that budget makes them all.
fn put_frame_text(page: &mut Page, s: &[u8])
    requires { page.old.at + text_room ≤ length page.old.out.now }
    ensures { Written page.old (frame_text s.now) page.new }
{
    match evaluator::load(s) {
        Err(e) => put_refused_text(page, e),
        Ok(s) => {
            let (t, _) = evaluator::advance(s, 60);
            put_job_text(page, t);
        }
    }
}

// Prints the frame s: its text stands at the front of the buffer, and the bytes past it stay. A buffer of
// fewer than 32,768 bytes is refused by 23, whatever the frame is, and all its bytes stay. The text of a
// refused frame is a text like any other, and no refusal of this call.
pub fn print_frame(s: &[u8], out: &mut [u8]) -> Result<usize, Refused>
    ensures answer { printed result ≡ print_answer s.now (length out.old) }
    ensures buffer { out.new ≡ print_buffer s.now out.old }
{
    if out.len() < TEXT_ROOM {
        return Err(Refused::TooLittleRoom);
    }
    let mut page = Page { out, at: 0 };
    put_frame_text(&mut page, s);
    Ok(page.at)
}
