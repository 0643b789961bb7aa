// The choice of one step: a digit in each row, from an estimate of w, and the residual that it leaves.
// Residuals and w are in units of 1 / 2^f, so that 2^f stands for 1; f is the fraction bits inside a state. A
// row's sum is in the unit of the frame's numbers, one of which is q units of w.
#![tactic(auto)]

ghost use Rattle.std.specs.Prelude.{◌≡◌, ◌+◌, ◌*◌, ◌^◌, ◌<◌, ◌≤◌, pos, ◌+ℤ◌, ◌-ℤ◌, ◌*ℤ◌, get_or, set};
ghost use Rattle.integers.specs.Sum.{Within};
ghost use Rattle.integers.specs.Flat.{filled, stores};
ghost use Rattle.additions.specs.Additions.{nonzero};
ghost use Rattle.choice.specs.Inner.{digit_from, residual_from, MayChooseRow, MayChoose};
ghost use Rattle.signs.specs.Inner.{Listed};
ghost use Rattle.counts.specs.Inner.{Counts, MayCount};

use job::ROWS;
use selection::Choices;
use state::DIGITS;

mod units; // units.rt: the numbers of a job by which its digits are chosen

pub use units::Units;

// 2^f, signed.
fn unit(f: usize) -> i64
    requires { f ≤ 44 }
    ensures { result ≡ pos (2 ^ f) }
{
    integers::to_signed(integers::pow2(f))
}

// Document 01's w: r times a row's residual z, and its sum s, a unit of which is q units of w.
fn shifted(units: Units, z: i64, s: i64) -> i64
    requires { (units.r ≤ 16) × (units.q ≤ 256) × Within z (2 ^ 44) × Within s (2 ^ 48) }
    ensures { result ≡ pos units.r *ℤ z +ℤ pos units.q *ℤ s }
{
    (units.r as i64) * z + (units.q as i64) * s
}

// The residual that digit q leaves of w.
fn residual_after(w: i64, q: i64, f: usize) -> i64
    requires { (f ≤ 44) × Within w (2 ^ 49) × Within q 15 }
    ensures { result ≡ w -ℤ pos (2 ^ f) *ℤ q }
{
    w - unit(f) * q
}

// The choice of row i in the step after the k-th: the digit, chosen from the row's residual in z and its sum
// in s. It is written to `new` and to its place in the array of all steps, where those of a step start 16
// after those of the step before, and the residual that it leaves to z.
fn choose_row(
    choices: &Choices,
    units: Units,
    i: usize,
    k: usize,
    s: &[i64; ROWS],
    z: &mut [i64; ROWS],
    new: &mut [i8; ROWS],
    digits: &mut [i8; DIGITS],
) -> i64
    requires { (i < 16) × (k < 60) × MayChooseRow units z.old s.now i }
    ensures digit { result ≡ digit_from units z.old s.now i }
    ensures newest { new.new ≡ set new.old i (digit_from units z.old s.now i) }
    ensures stored { digits.new ≡ set digits.old (16 * k + i) (digit_from units z.old s.now i) }
    ensures residual { z.new ≡ set z.old i (residual_from units z.old s.now i) }
{
    let w = shifted(units, z[i], s[i]);
    let d = choices.select(w, units.f, units.p);
    let digit = integers::narrow(d);
    new[i] = digit;
    digits[16 * k + i] = digit;
    z[i] = residual_after(w, d, units.f);
    d
}

// The choice of the step after the k-th: in `new` the digits chosen from the residuals z and the rows' sums s
// with the digits of the step before, and in z the residuals that they leave. No row uses a digit that this
// step has chosen. The words past row n stay.
pub fn choose(
    choices: &Choices,
    units: Units,
    n: usize,
    k: usize,
    s: &[i64; ROWS],
    z: &mut [i64; ROWS],
    new: &mut [i8; ROWS],
    digits: &mut [i8; DIGITS],
)
    requires { (k < 60) × MayChoose n units z.old s.now }
    ensures digits { new.new ≡ filled (digit_from units z.old s.now) new.old n }
    ensures stored { digits.new ≡ stores digits.old (λ i. 16 * k + i) (digit_from units z.old s.now) n }
    ensures residuals { z.new ≡ filled (residual_from units z.old s.now) z.old n }
{
    for i in 0..n {
        choose_row(choices, units, i, k, s, z, new, digits);
    }
}

// The same where digits are -1, 0 and 1, as in radix 2, with a list of the columns that the next step adds:
// the places of those whose digit is not 0, from the first. How many these are. Each of them is counted in
// `times`.
pub fn choose_and_list(
    choices: &Choices,
    units: Units,
    n: usize,
    k: usize,
    s: &[i64; ROWS],
    z: &mut [i64; ROWS],
    new: &mut [i8; ROWS],
    digits: &mut [i8; DIGITS],
    times: &mut [u8; ROWS],
    list: &mut [usize; ROWS],
) -> usize
    requires { (units.p ≤ 1) × (k < 60) × MayChoose n units z.old s.now × MayCount n times.old }
    ensures digits { new.new ≡ filled (digit_from units z.old s.now) new.old n }
    ensures stored { digits.new ≡ stores digits.old (λ i. 16 * k + i) (digit_from units z.old s.now) n }
    ensures residuals { z.new ≡ filled (residual_from units z.old s.now) z.old n }
    ensures counted { Counts n (λ j. get_or times.old j 0 + nonzero (digit_from units z.old s.now j)) times.new }
    ensures listed { Listed n (digit_from units z.old s.now) list.new result }
{
    let mut count: usize = 0;
    for i in 0..n {
        let d = choose_row(choices, units, i, k, s, z, new, digits);
        times[i] = times[i] + counts::added(d);
        list[count] = signs::column_place(d, i);
        count = counts::counted(d, count);
    }
    count
}
