// The trace writer. The digits are put in order first, and then written as one list, eight at once.
ghost use Rattle.std.specs.Prelude.{◌≡◌, ◌+◌, ◌*◌, ◌%◌, ◌<◌, ◌≤◌, length};
ghost use Rattle.bitfields.specs.Layout.{written};
ghost use Rattle.job.specs.Header.{Limits};
ghost use Rattle.job.specs.Refusal.{first_refusal};
ghost use Rattle.job.specs.Refused.{refusal_of};
ghost use Rattle.state.specs.State.{all_steps, digit_places};
ghost use Rattle.trace.specs.Inner.{digits_from, digit_fields, DigitsFit, StepsFit, Appended};
ghost use Rattle.trace.specs.Trace.{digit_list, trace_fields, trace_length, trace_writer_checks, trace_written, trace_writer_answer, trace_writer_buffer};

use crate::eights::digits_number;
use crate::recorder::copy_step;
use crate::{DIGIT_BITS, HEAD_BITS, Record, too_many_steps};
use header::header_number;
use job::{Header, Refused};
use state::DIGITS;

// The digits of k steps of n rows one after the other, from the first place on. Of each step all 16 rows are
// copied, a fixed number that the machine copies at once, and the next step is then copied over those past
// row n.
fn digits_in_order(d: &[i8; DIGITS], n: usize, k: usize) -> [i8; DIGITS]
    requires { (0 < n) × (n ≤ 16) × (k ≤ all_steps) }
    ensures { digits_from result 0 (n * k) ≡ digit_list n k d.now }
{
    let mut e = [0i8; DIGITS];
    let mut to = 0;
    for j in 0..k {
        copy_step(d, 16 * j, &mut e, to, 16);
        to += n;
    }
    e
}

// Writes the first 8 g digits after the steps made, each eight as one field. Such a field is as long as five
// bytes, so that each begins at bit 6 of a byte, as the first does: q is the number of whole bytes before it.
fn write_eights(out: &mut [u8], e: &[i8; DIGITS], g: usize)
    requires { (30 + 40 * g ≤ 8 * length out.old) × (8 * g ≤ digit_places) × DigitsFit e.now 0 (8 * g) }
    ensures { Appended 30 (digit_fields (digits_from e.now 0 (8 * g))) out.old out.new }
{
    let mut q = 3;
    for i in 0..g {
        bitfields::write_field(out, 8 * q + 6, 40, digits_number(e, 8 * i, 8));
        q += 5;
    }
}

// Writes the first m digits after the steps made: as many eights as there are, and then the rest.
fn write_list(out: &mut [u8], e: &[i8; DIGITS], m: usize)
    requires { (30 + 5 * m ≤ 8 * length out.old) × (m ≤ digit_places) × DigitsFit e.now 0 m }
    ensures { Appended 30 (digit_fields (digits_from e.now 0 m)) out.old out.new }
{
    let g = m / 8;
    let c = m % 8;
    write_eights(out, e, g);
    if 0 < c {
        bitfields::write_field(
            out,
            HEAD_BITS + 40 * g,
            DIGIT_BITS * c,
            digits_number(e, 8 * g, c),
        );
    }
}

// Writes the digits of k steps of n rows after the steps made.
fn write_digits(out: &mut [u8], d: &[i8; DIGITS], n: usize, k: usize)
    requires { (30 + 5 * (n * k) ≤ 8 * length out.old) × (0 < n) × (n ≤ 16) × (k ≤ all_steps) × StepsFit n k d.now }
    ensures { Appended 30 (digit_fields (digit_list n k d.now)) out.old out.new }
{
    let e = digits_in_order(d, n, k);
    write_list(out, &e, n * k);
}

// How many bytes a trace of k steps has.
fn trace_length(h: Header, k: usize) -> usize
    requires { Limits h × (k ≤ all_steps) }
    ensures { result ≡ trace_length h k }
{
    (HEAD_BITS + DIGIT_BITS * (h.n * k) + 7) / 8
}

// Writes a trace to the front of the buffer: the header and the steps made as one field, and then the digits.
// The bytes past it keep their values.
fn put_trace(h: Header, k: usize, d: &[i8; DIGITS], out: &mut [u8])
    requires { Limits h × (k ≤ all_steps) × StepsFit h.n k d.now × (trace_length h k ≤ length out.old) }
    ensures { out.new ≡ written out.old (trace_fields h k d.now) }
{
    bitfields::write_field(out, 0, HEAD_BITS, header_number(h) * 64 + k as u64);
    write_digits(out, d, h.n, k);
}

// The trace writer's refusals, of a record of any numbers and a buffer of `room` bytes.
fn check_record(t: &Record, room: usize) -> Result<(), Refused>
    ensures { refusal_of result ≡ first_refusal (trace_writer_checks t.now room) }
{
    let h = t.header;
    job::check_trace_header(h)?;
    if too_many_steps(h, t.k) {
        return Err(Refused::TooManySteps); // more than a trace of the job, or 60 bits, may hold
    }
    if state::beyond(&t.digits, h.n, h.p, 0, t.k) {
        return Err(Refused::DigitBeyond);
    }
    if room < trace_length(h, t.k) {
        return Err(Refused::TooLittleRoom);
    }
    Ok(())
}

// Writes the trace of a record to the front of a buffer, and gives the number of its bytes.
pub fn write_trace(t: Record, out: &mut [u8]) -> Result<usize, Refused>
    ensures answer { trace_written result ≡ trace_writer_answer t (length out.old) }
    ensures buffer { out.new ≡ trace_writer_buffer t out.old }
{
    check_record(&t, out.len())?;
    put_trace(t.header, t.k, &t.digits, out);
    Ok(trace_length(t.header, t.k))
}
