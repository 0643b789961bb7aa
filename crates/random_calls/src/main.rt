// Calls on states that no load made: any numbers in any field, and jobs made from cases A and E with an x of
// 3, of the scales 0 and 1, with random changes, so that some of them pass 24. After each call what its
// contract says is looked at again, word by word: a refused advance gives back every word of the state; an
// accepted one counts the growth of k, and keeps the header, the scale, the matrix, the digits of the steps
// before and of the steps still to come, and all that stands past the n-th row; a refused readings keeps every
// word of the list, and an accepted one keeps the words past the n-th; so do the running sums, with the words
// that they count. It prints how many calls of advance, of readings and of the running sums there were for
// each refusal number, 0 for the accepted ones, and `ok`; at a difference it prints `wrong`.
//
// Each turn makes the steps of these two jobs as well, by load, advance and readings, by evaluate and by
// perform, which are to give the same words and to count as many additions.
#![tactic(auto)]

use emethod::{Evaluation, Header, Refused, State, Steps};
use job::ROWS;
use state::DIGITS;
use std::io;
use system::ENTRIES;

// More than the largest refusal number.
const TALLIES: usize = 32;

// The next number of the random sequence.
fn next(x: u64) -> u64 {
    let a = x ^ (x << 13);
    let b = a ^ (a >> 7);
    b ^ (b << 17)
}

// A field's number: mostly a small one, and any number now and then.
fn small(x: u64, most: u64) -> usize {
    if most == 0 || x % 16 == 0 {
        return x as usize;
    }
    ((x >> 8) % most) as usize
}

// Any number with a sign: half of x, with all bits flipped where x is odd.
fn any_number(x: u64) -> i64 {
    let h = integers::to_signed(x / 2);
    if x % 2 == 1 {
        return !h;
    }
    h
}

// A number with a sign: any one, or in half of the cases one from -8 to 7.
fn number(x: u64) -> i64 {
    if x % 4 < 2 {
        return any_number(x);
    }
    any_number(x / 4 % 16)
}

// A digit: mostly 0, and any one of 8 bits now and then.
fn digit(x: u64) -> i8 {
    if x % 64 != 0 {
        return 0;
    }
    let h = (x / 128 % 128) as i8;
    if x / 64 % 2 == 1 {
        return !h;
    }
    h
}

// A header of random fields, near the limits or far from them.
fn random_header(seed: u64) -> Header {
    let a = next(seed);
    let b = next(a);
    let c = next(b);
    let d = next(c);
    let e = next(d);
    let f = next(e);
    Header {
        kind: small(a, 5),
        code: small(b, 5),
        p: small(c, 17),
        f: small(d, 42),
        n: small(e, 18),
        m: small(f, 62),
    }
}

// A state of any numbers: a turn for each digit, so that the matrix and the residuals are set more than once.
fn random_state(seed: u64) -> State {
    let mut g = [0i64; ENTRIES];
    let mut z = [0i64; ROWS];
    let mut digits = [0i8; DIGITS];
    let mut x = seed;
    for i in 0..DIGITS {
        x = next(x);
        g[i % ENTRIES] = number(x);
        z[i % ROWS] = number(!x);
        digits[i] = digit(x >> 7);
    }
    State {
        busy: x % 8 != 0,
        header: random_header(seed),
        scale: small(x >> 16, 4),
        k: small(x, 62),
        g,
        z,
        digits,
    }
}

// The state of a frame's job after the steps that a budget allows.
fn job_after(frame: &[u8], budget: u64) -> State {
    let s = emethod::load(frame).unwrap_or(emethod::idle());
    let (t, _) = emethod::advance(s, budget);
    t
}

// One field of the header changed.
fn changed_header(h: Header, which: u64, x: u64) -> Header {
    let mut t = h;
    match which {
        0 => t.m = small(x, 62),
        1 => t.n = small(x, 18),
        2 => t.f = small(x, 42),
        3 => t.p = small(x, 3),
        11 => t.kind = small(x, 6),
        _ => {}
    }
    t
}

// One entry of the matrix changed.
fn changed_matrix(g: [i64; ENTRIES], x: u64) -> [i64; ENTRIES] {
    let mut t = g;
    t[((x >> 4) % ENTRIES as u64) as usize] = number(x);
    t
}

// One residual changed.
fn changed_residuals(z: [i64; ROWS], x: u64) -> [i64; ROWS] {
    let mut t = z;
    t[((x >> 4) % ROWS as u64) as usize] = number(x);
    t
}

// One digit changed.
fn changed_digits(d: [i8; DIGITS], x: u64) -> [i8; DIGITS] {
    let mut t = d;
    t[((x >> 4) % 64) as usize] = ((x >> 12) % 3) as i8;
    t
}

// The job of case A, or of case E, each with an x of 3.
fn job_of_either(which: u64, budget: u64) -> State {
    if which == 0 {
        return job_after(b"\x01\x10\x44\x0c\x32\x00", budget);
    }
    job_after(b"\x01\x10\x44\x0c\x92\x00", budget)
}

// A job made from case A or E with one part changed; in some of the cases nothing is.
fn changed_job(seed: u64) -> State {
    let a = next(seed);
    let b = next(a);
    let mut s = job_of_either(a / 16 % 2, (b >> 32) % 7);
    let which = a % 13;
    s.header = changed_header(s.header, which, b);
    match which {
        4 => s.k = small(b, 8),
        5 | 6 => s.g = changed_matrix(s.g, b),
        7 => s.z = changed_residuals(s.z, b),
        8 | 9 => s.digits = changed_digits(s.digits, b),
        10 => s.scale = small(b, 4),
        _ => {}
    }
    s
}

// A random budget: 0, small or any.
fn random_budget(x: u64) -> u64 {
    let y = x >> 8;
    if x % 8 == 0 {
        return y;
    }
    y % 4
}

// How many calls of each kind there were for each refusal number, 0 for the accepted ones.
#[derive(Drop)]
struct Tallies {
    advances: [u64; TALLIES],
    readings: [u64; TALLIES],
    sums: [u64; TALLIES],
}

// Adds one to the tally of a refusal's number, or of 0 for none. No number is past the tallies.
fn tally(tallies: &mut [u64; TALLIES], refusal: Option<Refused>) {
    let number = refusal.map_or(0, |e| e.number());
    if let Some(n) = tallies.get_mut(number) {
        *n = n.saturating_add(1);
    }
}

// The tally of a refusal number.
fn tallied(tallies: &[u64; TALLIES], number: usize) -> u64 {
    tallies.get(number).copied().unwrap_or(0)
}

impl Tallies {
    fn new() -> Self {
        Tallies {
            advances: [0; TALLIES],
            readings: [0; TALLIES],
            sums: [0; TALLIES],
        }
    }

    // Adds a call of advance.
    fn add_advance(&mut self, refusal: Option<Refused>) {
        tally(&mut self.advances, refusal);
    }

    // Adds a call of readings.
    fn add_readings(&mut self, refusal: Option<Refused>) {
        tally(&mut self.readings, refusal);
    }

    // Adds a call of the running sums.
    fn add_sums(&mut self, refusal: Option<Refused>) {
        tally(&mut self.sums, refusal);
    }

    // Prints the line of a refusal number: how many calls of advance, of readings and of the running sums gave it.
    fn print_line(&self, rt: &impl Print, number: usize) -> io::Result<()> {
        let advances = tallied(&self.advances, number);
        let readings = tallied(&self.readings, number);
        let sums = tallied(&self.sums, number);
        println!(rt; "{number} {advances} {readings} {sums}")
    }
}

// Whether the digit at the place i is one that steps may set: of one of the first n rows, in a step after the
// first k, up to the `last`.
fn may_change(i: usize, n: usize, k: usize, last: usize) -> bool {
    i % ROWS < n && k <= i / ROWS && i / ROWS < last
}

// Whether all digits are the same but those that steps may set.
fn digits_kept(a: &[i8; DIGITS], b: &[i8; DIGITS], n: usize, k: usize, last: usize) -> bool {
    a.iter()
        .zip(b)
        .enumerate()
        .all(|(i, (x, y))| x == y || may_change(i, n, k, last))
}

// Whether t has every word of s but those that steps set in the first n rows: k, the residuals, and the
// digits of the steps after the k-th. With n = 0 it has every residual and every digit of s.
fn words_kept(s: &State, t: &State, n: usize) -> bool {
    s.busy == t.busy
        && s.header == t.header
        && s.scale == t.scale
        && s.g == t.g
        && s.z.get(n..) == t.z.get(n..)
        && digits_kept(&s.digits, &t.digits, n, s.k, t.k)
}

// Whether the count is the growth of k, above 0 and within the budget.
fn count_right(before: usize, after: usize, made: u64, budget: u64) -> bool {
    0 < made && made <= budget && after.checked_sub(before) == Some(made as usize)
}

// An advance, and whether its answer and its state are right. With a refusal it changes no word of the state.
fn advance_right(s: State, budget: u64, tallies: &mut Tallies) -> bool {
    let (t, answer) = emethod::advance(s, budget);
    tallies.add_advance(answer.err());
    match answer {
        Ok(steps) => count_right(s.k, t.k, steps.made, budget) && words_kept(&s, &t, s.header.n),
        Err(_) => t.k == s.k && words_kept(&s, &t, 0),
    }
}

// A readings call into the first `room` words of a list, and whether it keeps the words that it must: all
// that the list had `before`, or those past the n-th.
fn readings_right(
    s: State,
    before: &[i64],
    list: &mut [i64],
    room: usize,
    tallies: &mut Tallies,
) -> bool {
    let Some(lent) = list.get_mut(..room) else {
        return false;
    };
    let answer = emethod::readings(s, lent);
    tallies.add_readings(answer.err());
    let set = if answer.is_ok() { s.header.n } else { 0 };
    before.get(set..) == list.get(set..)
}

// A call for the running sums into the first `room` words of a list, and whether it keeps the words that it
// must: all that the list had `before`, or those past the words that it counts.
fn sums_right(
    s: State,
    before: &[i64],
    list: &mut [i64],
    room: usize,
    tallies: &mut Tallies,
) -> bool {
    let Some(lent) = list.get_mut(..room) else {
        return false;
    };
    let answer = emethod::running_sums(s, lent);
    tallies.add_sums(answer.err());
    let set = answer.unwrap_or(0);
    before.get(set..) == list.get(set..)
}

// A state from the seed: now and then the idle one, one of any numbers, or a job made from case A or E.
fn pick(seed: u64) -> State {
    if seed % 64 == 0 {
        return emethod::idle();
    }
    if seed % 4 == 0 {
        return random_state(seed);
    }
    changed_job(seed)
}

// Whether an evaluation was accepted, has this scale, made so many steps, and gave the readings of the list.
fn agrees(e: Evaluation, scale: usize, made: usize, readings: &[i64], list: &[i64]) -> bool {
    e.refusal.is_none() && e.scale == scale && e.made == made && readings == list
}

// The additions of an advance: of one that is refused, none.
fn additions(answer: Result<Steps, Refused>) -> usize {
    answer.map_or(0, |steps| steps.additions)
}

// Whether a job of order 2 has the same scale, the same readings, as many steps and as many additions after
// two advances by the three ways to make them.
fn ways_agree(frame: &[u8], first: u64, second: u64) -> bool {
    let Ok(job) = emethod::load(frame) else {
        return false;
    };
    let mut called = [0i64; 2];
    let mut evaluated = [0i64; 2];
    let mut performed = [0i64; 2];
    let (s, a) = emethod::advance(job, first);
    let (s, b) = emethod::advance(s, second);
    let read = emethod::readings(s, &mut called);
    let e = emethod::evaluate(frame, &[first, second], &mut evaluated);
    let p = emethod::perform(frame, &[0, first, 0, second, 1, 2], &mut performed);
    read.is_ok()
        && agrees(e, s.scale, s.k, &called, &evaluated)
        && agrees(p, s.scale, s.k, &called, &performed)
        && additions(a).checked_add(additions(b)) == Some(e.additions)
        && p.additions == e.additions
}

// One state, an advance, a readings call and one for the running sums, and the three ways; whether all are
// right. The lists lent have the words of some random matrix.
fn turn(seed: u64, tallies: &mut Tallies) -> bool {
    let s = pick(seed);
    let a = next(seed ^ 1);
    let b = next(a);
    let before = random_state(b).g;
    let mut list = before;
    let mut words = before;
    ways_agree(b"\x01\x10\x44\x0c\x32\x00", a % 7, b % 7)
        && ways_agree(b"\x01\x10\x44\x0c\x92\x00", a % 7, b % 7)
        && advance_right(s, random_budget(a), tallies)
        && readings_right(s, &before, &mut list, ((b >> 5) % 21) as usize, tallies)
        && sums_right(s, &before, &mut words, ((b >> 10) % 9) as usize, tallies)
}

// As many turns as asked for, and whether all are right.
fn turns(most: usize, tallies: &mut Tallies) -> bool {
    let mut x: u64 = 88172645463325252;
    for _ in 0..most {
        x = next(x);
        if !turn(x >> 3, tallies) {
            return false;
        }
    }
    true
}

fn main(rt: HostRuntime) -> io::Result<()> {
    let mut tallies = Tallies::new();
    if !turns(4000, &mut tallies) {
        return println!(rt; "wrong");
    }
    tallies.print_line(&rt, 0)?;
    for number in 20..25 {
        tallies.print_line(&rt, number)?;
    }
    println!(rt; "ok")
}
