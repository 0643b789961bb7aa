// The trace reader. The bits after the third byte are handed on as a part of the caller's bytes, and what is
// read of them is proved over that part alone.
ghost use Rattle.std.specs.Prelude.{◌≡◌, ◌+◌, ◌-◌, ◌*◌, ◌<◌, ◌≤◌, length};
ghost use Rattle.std.proofs.lemmas.List.Edits.{sets};
ghost use Rattle.bitfields.specs.Twos.{numbers};
ghost use Rattle.job.specs.Header.{Limits};
ghost use Rattle.job.specs.Refusal.{first_refusal};
ghost use Rattle.job.specs.Refused.{refusal_of};
ghost use Rattle.state.specs.State.{all_steps, digit_places};
ghost use Rattle.trace.specs.Inner.{ZerosAt, part_wrong_length, part_fill_bit_set, size_checks, part_answer};
ghost use Rattle.trace.specs.Trace.{digit_array, recorded, trace_reader_answer};

use crate::eights::{read_eight, store_eight};
use crate::{DIGIT_BITS, Record, STEPS_BITS, too_many_steps};
use header::read_header;
use job::{Header, Refused};
use state::DIGITS;

// Reads the n digits of one step from the bit p on, and stores them from the place `at` on, where zeros
// stand. They are stored eight at once, so that past row n zeros are stored where zeros stand.
fn read_step(b: &[u8], p: usize, n: usize, d: &mut [i8; DIGITS], at: usize)
    requires { (p + 5 * n ≤ 8 * length b.now) × (0 < n) × (n ≤ 16) × (at + 16 ≤ digit_places) × (p ≤ 6 + 5 * digit_places) × ZerosAt d.old at 16 }
    ensures { d.new ≡ sets d.old at (numbers b.now p 5 n) }
{
    if n <= 8 {
        store_eight(read_eight(b, p, n), d, at);
        return;
    }
    store_eight(bitfields::read_field(b, p, 40), d, at);
    store_eight(read_eight(b, p + 40, n - 8), d, at + 8);
}

// The digits of k steps of n rows, which stand in b after the steps made; 0 past step k and past row n.
fn read_digits(b: &[u8], n: usize, k: usize) -> [i8; DIGITS]
    requires { (6 + 5 * (n * k) ≤ 8 * length b.now) × (0 < n) × (n ≤ 16) × (k ≤ all_steps) }
    ensures { result ≡ digit_array n k (numbers b.now 6 5 (n * k)) }
{
    let mut d = [0i8; DIGITS];
    let mut p = STEPS_BITS;
    for j in 0..k {
        read_step(b, p, n, &mut d, 16 * j);
        p += DIGIT_BITS * n;
    }
    d
}

// Refusals 10, 6 and 7, of the part b of a trace after its third byte.
fn check_size(b: &[u8], h: Header, k: usize) -> Result<(), Refused>
    requires { Limits h × (k < 64) }
    ensures { refusal_of result ≡ first_refusal (size_checks h k (part_wrong_length h k b.now) (part_fill_bit_set h k b.now)) }
{
    let many = too_many_steps(h, k);
    let bits = STEPS_BITS + DIGIT_BITS * (h.n * k);
    let size = (bits + 7) / 8;
    if many {
        return Err(Refused::TooManySteps); // more than a trace of the job, or 60 bits, may hold
    }
    if b.len() != size {
        return Err(Refused::WrongLength); // not as long as the fields demand
    }
    if !bitfields::fill_is_zero(b, bits) {
        return Err(Refused::FillBitSet);
    }
    Ok(())
}

// Reads the part b of a trace after its third byte: the steps made, and then the digits. Refusals 10, 6, 7
// and 11.
fn read_part(b: &[u8], h: Header) -> Result<Record, Refused>
    requires { (1 ≤ length b.now) × Limits h }
    ensures { recorded result ≡ part_answer h b.now }
{
    let k = bitfields::read_field(b, 0, STEPS_BITS) as usize;
    check_size(b, h, k)?;
    let digits = read_digits(b, h.n, k);
    if state::beyond(&digits, h.n, h.p, 0, k) {
        return Err(Refused::DigitBeyond);
    }
    Ok(Record {
        header: h,
        k,
        digits,
    })
}

// Reads a trace: the record that its bytes spell.
pub fn read_trace(s: &[u8]) -> Result<Record, Refused>
    ensures { recorded result ≡ trace_reader_answer s.now }
{
    if s.len() < 4 {
        return Err(Refused::TooShort);
    }
    let h = read_header(s);
    job::check_trace_read(h)?;
    read_part(&s[3..], h)
}
