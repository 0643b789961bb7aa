// Load, advance and readings (document 01, "Calls"). A state goes in and comes back by value, a list of
// readings is lent.
//
// `load` makes the state of a job frame: the job's matrix and right-hand sides, with 0 steps made. It is
// refused as the frame is.
//
// `advance` makes as many steps as the budget allows and as are left, and answers how many, and how many
// additions they cost. Refused, it gives the state back as it went in. The state is looked at once, before the
// first step: a step keeps what 24 asks. No step copies the matrix.
//
// `readings` puts one reading a row, in row order, into the list; the words past the n-th keep their
// values. Refused, it leaves all words as they were.
//
// None of the three requires anything; docs/FORMAT.md has in words by which numbers each refuses, and in
// which order. Each contract is an equality with a definition of
// specs/Evaluator.antt, for every frame and every state. specs/Theorems.antt and specs/PastOrder.antt say
// what follows from these definitions: which refusals there are and what they leave, what is counted, and
// that every state of a loaded job passes 20 and 24. That the steps are the recurrence's is said in
// specs/Steps.antt of stepping.
#![tactic(auto)]

ghost use Rattle.std.specs.Prelude.{◌≡◌, ℕ, true, cond, ◌++◌, ◌+◌, ◌<◌, ◌≤◌, ltb, leb, length, drop};
ghost use Rattle.integers.specs.Flat.{list_from};
ghost use Rattle.job.specs.Header.{radix, Limits};
ghost use Rattle.job.specs.Refused.{refusal_of};
ghost use Rattle.recurrence.specs.Recurrence.{reading};
ghost use Rattle.state.specs.State.{digits_of};
ghost use Rattle.evaluator.specs.Evaluator.{load_answer, loaded, advance_refusal, advance_answer, advanced, readings_refusal, readings_list};
ghost use Rattle.evaluator.specs.Inner.{MayRead, MayReadRows};

use job::{Header, ROWS, Refused};
use state::{DIGITS, State};
use system::ENTRIES;

// What an advance has made: the steps, and their additions.
#[derive(Clone, Copy, PartialEq, Eq, Debug)]
pub struct Steps {
    pub made: u64,
    pub additions: usize,
}

// The state of the job that the frame s spells. The right-hand sides are made before the matrix: looked at
// right after they are stored, they would make the search for the scale wait.
pub fn load(s: &[u8]) -> Result<State, Refused>
    ensures { load_answer result ≡ loaded s.now }
{
    let mut v = [0i64; job::NUMBERS];
    let h = frame::unpack(s, &mut v)?;
    let n = job::count(h);
    let numbers = &v[..n];
    let z = system::right_sides(h, numbers);
    let mut g = [0i64; ENTRIES];
    system::place_matrix(&mut g, h, numbers);
    let scale = scale::scale(&z, h);
    frame::check_system(&g, h, scale)?;
    Ok(State {
        busy: true,
        header: h,
        scale,
        k: 0,
        g,
        z,
        digits: [0; DIGITS],
    })
}

// What advance is refused by: 20, 24, 22, 21.
fn check_advance(s: &State, budget: u64) -> Result<(), Refused>
    ensures { refusal_of result ≡ advance_refusal s.now budget }
{
    s.check()?;
    if budget == 0 {
        return Err(Refused::NoBudget);
    }
    if job::last_step(s.header, s.scale) <= s.k {
        return Err(Refused::NoStepLeft);
    }
    Ok(())
}

// As many steps as the budget allows and as are left: the state that they leave, and what was made. Refused, the
// state is as it went in. Kept apart from its callers it would copy the state twice more.
#[inline]
pub fn advance(s: State, budget: u64) -> (State, Result<Steps, Refused>)
    ensures { advance_answer result ≡ advanced s budget }
{
    if let Err(e) = check_advance(&s, budget) {
        return (s, Err(e));
    }
    let mut t = s;
    let h = t.header;
    let scale = t.scale;
    let k = t.k;
    let made = budget.min((job::last_step(h, scale) - k) as u64);
    let mut z = t.z;
    let mut digits = t.digits;
    let additions = stepping::make_steps(h, scale, k, made as usize, &t.g, &mut z, &mut digits);
    t.z = z;
    t.digits = digits;
    t.k = k + made as usize;
    (t, Ok(Steps { made, additions }))
}

// The readings of N rows, from row i on, after k steps, by Horner's rule. Several rows at once: the products of
// one need not wait for those of another.
fn readings_from<const N: usize>(digits: &[i8; DIGITS], i: usize, k: usize, r: usize) -> [i64; N]
    requires { (t : ℕ) → t < N → MayRead digits.now (i + t) k r }
    ensures { result ≡ list_from i N (reading r (digits_of digits.now) k) }
{
    let mut y = [0i64; N];
    for j in 0..k {
        for t in 0..N {
            y[t] = r as i64 * y[t] + i64::from(digits[16 * j + (i + t)]);
        }
    }
    y
}

// What readings is refused by: 20, 24, and 23 where a list of `room` words has no word for some row.
fn check_readings(s: &State, room: usize) -> Result<(), Refused>
    ensures { refusal_of result ≡ readings_refusal s.now room }
{
    s.check()?;
    if room < s.header.n {
        return Err(Refused::TooLittleRoom);
    }
    Ok(())
}

// Puts the readings at step k, one a row, into the list; the words past the n-th stay. For callers that
// know their state to pass 24.
pub fn put_readings(h: Header, k: usize, digits: &[i8; DIGITS], out: &mut [i64])
    requires { MayReadRows h k digits.now × (h.n ≤ length out.old) }
    ensures { out.new ≡ list_from 0 h.n (reading (radix h.code) (digits_of digits.now) k) ++ drop h.n out.old }
{
    let n = h.n;
    let r = job::radix(h.code);
    for i in 0..n / 2 {
        let two = readings_from::<2>(digits, 2 * i, k, r);
        out[2 * i] = two[0];
        out[2 * i + 1] = two[1];
    }
    if n % 2 == 1 {
        let last = readings_from::<1>(digits, n - 1, k, r);
        out[n - 1] = last[0];
    }
}

// The readings at the steps made, one a row.
pub fn readings(s: State, out: &mut [i64]) -> Result<(), Refused>
    ensures answer { refusal_of result ≡ readings_refusal s (length out.old) }
    ensures list { out.new ≡ readings_list s out.old }
{
    check_readings(&s, out.len())?;
    put_readings(s.header, s.k, &s.digits, out);
    Ok(())
}
