// The record of a state.
ghost use Rattle.std.specs.Prelude.{◌≡◌, ◌+◌, ◌*◌, ◌<◌, ◌≤◌};
ghost use Rattle.std.proofs.lemmas.List.Edits.{sets};
ghost use Rattle.state.specs.State.{all_steps, digit_places};
ghost use Rattle.trace.specs.Inner.{digits_from};
ghost use Rattle.trace.specs.Trace.{digit_list, digit_array, recorded, record_answer};

use crate::Record;
use job::Refused;
use state::{DIGITS, State};

// Copies n digits, from the place i on, to the place `at` on.
pub(crate) fn copy_step(from: &[i8; DIGITS], i: usize, to: &mut [i8; DIGITS], at: usize, n: usize)
    requires { (i + n ≤ digit_places) × (at + n ≤ digit_places) }
    ensures { to.new ≡ sets to.old at (digits_from from.now i n) }
{
    to[at..at + n].copy_from_slice(&from[i..i + n]);
}

// The digits of the first k steps and the first n rows, and 0 elsewhere.
fn trimmed_digits(d: &[i8; DIGITS], n: usize, k: usize) -> [i8; DIGITS]
    requires { (n ≤ 16) × (k ≤ all_steps) }
    ensures { result ≡ digit_array n k (digit_list n k d.now) }
{
    let mut t = [0i8; DIGITS];
    for j in 0..k {
        copy_step(d, 16 * j, &mut t, 16 * j, n);
    }
    t
}

// Gives the record of a state.
pub fn record_of(s: State) -> Result<Record, Refused>
    ensures { recorded result ≡ record_answer s }
{
    s.check()?;
    let digits = trimmed_digits(&s.digits, s.header.n, s.k);
    Ok(Record {
        header: s.header,
        k: s.k,
        digits,
    })
}
