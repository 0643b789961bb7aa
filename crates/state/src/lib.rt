// The state of an evaluation: the idle state, and whether a state of any numbers keeps its limits (refusals
// 20 and 24).
#![tactic(auto)]

ghost use Rattle.std.specs.Prelude.{◌≡◌, true, cond, ◌||◌, ◌+◌, ◌-◌, ◌<◌, ◌≤◌, ltb, nat_abs};
ghost use Rattle.job.specs.Refusal.{first_refusal};
ghost use Rattle.job.specs.Refused.{refusal_of};
ghost use Rattle.system.specs.Rows.{first_row};
ghost use Rattle.state.specs.State.{all_steps, beyond, idle_state, breaks_limit, state_checks};
ghost use Rattle.state.specs.Inner.{mark_of, RowsBeyond};

use job::{Header, ROWS, Refused, STEPS};
use system::ENTRIES;

// The digits of all steps.
pub const DIGITS: usize = STEPS * ROWS;

// Idle, or a job: its header, its scale s, the steps made, the matrix (row i, column j at 16 i + j) in units
// of 1 / 2^f, the residuals in units of 1 / (2^f × r^s), and the digits of all steps (step j, from 1, of row
// i at 16 (j - 1) + i). The idle state has every number 0.
#[derive(Clone, Copy)]
pub struct State {
    pub busy: bool,
    pub header: Header,
    pub scale: usize,
    pub k: usize,
    pub g: [i64; ENTRIES],
    pub z: [i64; ROWS],
    pub digits: [i8; DIGITS],
}

// The idle state.
pub fn idle() -> State
    ensures { result ≡ idle_state }
{
    State {
        busy: false,
        header: job::no_header(),
        scale: 0,
        k: 0,
        g: [0; ENTRIES],
        z: [0; ROWS],
        digits: [0; DIGITS],
    }
}

// A row's mark after one digit more: 1 where the digit's magnitude is above the bound, else as it was.
fn marked(old: u8, x: i8, bound: usize) -> u8
    requires { bound ≤ 127 }
    ensures { result ≡ cond (ltb bound (nat_abs x)) 1 old }
{
    let high = bound as i8;
    if (high < x) | (x < 0 - high) { 1 } else { old }
}

// The rows that have a digit beyond the bound in one of the c steps after the first j: a mark for each. All
// rows of a step are looked at, and none is left early, so that the machine takes them at once.
fn rows_beyond(d: &[i8; DIGITS], bound: usize, j: usize, c: usize) -> [u8; ROWS]
    requires { (bound ≤ 127) × (j + c ≤ 60) }
    ensures { RowsBeyond bound d.now j (λ i. j + c) result }
{
    let mut m = [0u8; ROWS];
    for t in j..j + c {
        for i in 0..ROWS {
            m[i] = marked(m[i], d[16 * t + i], bound);
        }
    }
    m
}

// Whether one of the first n rows has a mark.
fn some_row(marks: [u8; ROWS], n: usize) -> bool
    requires { n ≤ 16 }
    ensures { result ≡ ltb 0 (first_row n (mark_of marks)) }
{
    marks[..n].iter().any(|m| 0 < *m)
}

// Whether one of the first n rows has a digit beyond the bound in one of the c steps after the first j.
pub fn beyond(d: &[i8; DIGITS], n: usize, bound: usize, j: usize, c: usize) -> bool
    requires { (n ≤ 16) × (bound ≤ 127) × (j + c ≤ 60) }
    ensures { result ≡ beyond n bound d.now j c }
{
    some_row(rows_beyond(d, bound, j, c), n)
}

// Whether one of the first n rows has a digit beyond p in the first k steps, or one other than 0 after them.
fn bad_digit(d: &[i8; DIGITS], n: usize, p: usize, k: usize) -> bool
    requires { (n ≤ 16) × (p ≤ 127) × (k ≤ 60) }
    ensures { result ≡ (beyond n p d.now 0 k || beyond n 0 d.now k (all_steps - k)) }
{
    beyond(d, n, p, 0, k) | beyond(d, n, 0, k, STEPS - k)
}

impl State {
    // Refusal 24: a header field or the scale out of its limits, k above the last step, a heavy row, a residual
    // above its bound, a digit beyond p, or a digit other than 0 after the k-th step.
    fn breaks_limit(&self) -> bool
        ensures { result ≡ breaks_limit self.now }
    {
        let h = self.header;
        if job::check_header(h).is_err() {
            return true;
        }
        if job::scale_out_of_range(h, self.scale) {
            return true;
        }
        if job::last_step(h, self.scale) < self.k {
            return true;
        }
        if system::heavy_row(&self.g, h).is_some() {
            return true;
        }
        if system::large_residual(&self.z, h, self.scale).is_some() {
            return true;
        }
        bad_digit(&self.digits, h.n, h.p, self.k)
    }

    // Refusals 20 and 24 of a state of any numbers.
    pub fn check(&self) -> Result<(), Refused>
        ensures { refusal_of result ≡ first_refusal (state_checks self.now) }
    {
        if !self.busy {
            return Err(Refused::Idle);
        }
        if self.breaks_limit() {
            return Err(Refused::LimitBroken);
        }
        Ok(())
    }
}
