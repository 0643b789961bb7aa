// Setting up the system of a job from its numbers, and weighing it (document 01, "The system"; refusal 8). A
// matrix is an array with row i, column j at 16 * i + j, a vector an array with a number a row. Rows and
// columns count from 0 here, and only row numbers that are given count from 1. Past the order n an array
// holds zeros.
#![tactic(auto)]

ghost use Rattle.std.specs.Prelude.{◌≡◌, cond, ◌+◌, ◌-◌, ◌*◌, ◌/◌, ◌<◌, ◌≤◌, ◌^◌, ltb, eqb, pos, neg_ℤ, nat_abs, ◌-ℤ◌, length, ◌≤ℤ◌};
ghost use Rattle.integers.specs.Sum.{Within};
ghost use Rattle.integers.specs.Flat.{at, entry, flat_vector, flat_matrix, stores};
ghost use Rattle.job.specs.Header.{count, Limits};
ghost use Rattle.job.specs.Kinds.{kind_named};
ghost use Rattle.job.specs.Rules.{ScaleLimits};
ghost use Rattle.system.specs.Rows.{first_row, row_given, heavy_row, large_residual};
ghost use Rattle.system.specs.Inner.{largest_light, residual_most, Numbers, Apart, zeros, too_heavy, too_large};
ghost use Rattle.system.specs.System.{denominator, system_entry, coefficient, subtrahend, quotients_entry, matrix_of, right_place, right_side_of};

use job::{Header, Kind, ROWS};

// The entries of a matrix: as many columns as rows.
pub const ENTRIES: usize = ROWS * ROWS;

// Stores x in the column after the diagonal, for which the last row has no column.
fn place_argument(g: &mut [i64; ENTRIES], n: usize, x: i64)
    requires { n ≤ 16 }
    ensures { g.new ≡ stores g.old (λ i. 16 * i + (i + 1)) (λ i. x) (n - 1) }
{
    for i in 1..n {
        g[16 * (i - 1) + i] = x;
    }
}

// Stores -q in the first column of every row but the first.
fn place_denominator(g: &mut [i64; ENTRIES], n: usize, v: &[i64])
    requires { (n ≤ 16) × Numbers (2 * n) v.now }
    ensures { g.new ≡ stores g.old (λ i. 16 * (i + 1)) (λ i. neg_ℤ (denominator n v.now (i + 1))) (n - 1) }
{
    for i in 1..n {
        g[16 * i] = 0 - v[n + i];
    }
}

// An entry of the identity less A, in units of 1 / u.
fn system_entry(u: u64, i: usize, j: usize, a: i64) -> i64
    requires { (u ≤ 2 ^ 40) × Within a (2 ^ 41) }
    ensures { result ≡ cond (eqb i j) (pos u) (pos 0) -ℤ a }
{
    if i == j {
        integers::to_signed(u) - a
    } else {
        0 - a
    }
}

// Stores row i of the matrix of a system.
fn place_row(g: &mut [i64; ENTRIES], i: usize, n: usize, u: u64, v: &[i64])
    requires { (i < n) × (n ≤ 16) × (u ≤ 2 ^ 40) × Numbers (n * (n + 1)) v.now }
    ensures { g.new ≡ stores g.old (λ j. 16 * i + j) (system_entry u n v.now i) n }
{
    for j in 0..n {
        g[16 * i + j] = system_entry(u, i, j, v[i * (n + 1) + j]);
    }
}

// Stores the matrix of a system in an array of zeros, row by row.
fn place_rows(g: &mut [i64; ENTRIES], n: usize, u: u64, v: &[i64])
    requires { (n ≤ 16) × (u ≤ 2 ^ 40) × Numbers (n * (n + 1)) v.now × (g.old ≡ zeros) }
    ensures { g.new ≡ flat_matrix n (system_entry u n v.now) }
{
    for i in 0..n {
        place_row(g, i, n, u, v);
    }
}

// Stores the matrix of a sum of quotients in an array of zeros: in every column but the first, c in row 0 and
// b on the diagonal. The matrix of order i has no number of column i, so each turn leaves that of one order
// more.
fn place_quotients(g: &mut [i64; ENTRIES], n: usize, v: &[i64])
    requires { (1 ≤ n) × (n ≤ 16) × Numbers (3 * n - 2) v.now × (g.old ≡ zeros) }
    ensures { g.new ≡ flat_matrix n (quotients_entry (coefficient v.now) (subtrahend v.now)) }
{
    for i in 1..n {
        g[i] = v[3 * i - 2];
        g[16 * i + i] = v[3 * i];
    }
}

// Stores the matrix G of a job, from the numbers as they are sent, in an array of zeros. The array is lent,
// so that its 2 KB are not copied on the way to where they are kept.
pub fn place_matrix(g: &mut [i64; ENTRIES], h: Header, v: &[i64])
    requires { Limits h × Numbers (count h) v.now × (g.old ≡ zeros) }
    ensures { g.new ≡ flat_matrix h.n (matrix_of h v.now) }
{
    let n = h.n;
    match Kind::of(h.kind).unwrap() {
        Kind::Polynomial => place_argument(g, n, v[0]),
        Kind::Rational => {
            place_argument(g, n, v[0]);
            place_denominator(g, n, v);
        }
        Kind::System => place_rows(g, n, integers::pow2(h.f), v),
        Kind::Quotients => place_quotients(g, n, v),
    }
}

// Where among the numbers the right-hand side of row i stands.
fn right_place(kind: Kind, n: usize, i: usize) -> usize
    requires { (i ≤ n) × (n ≤ 16) }
    ensures { result ≡ right_place (kind_named kind) n i }
{
    match kind {
        Kind::Polynomial | Kind::Rational => 1 + i,
        Kind::System => i * (n + 1) + n,
        Kind::Quotients => if i == 0 { 0 } else { 3 * i - 1 },
    }
}

// How far behind it that of the next row stands, from row 1 on.
fn right_stride(kind: Kind, n: usize) -> usize
    requires { n ≤ 16 }
    ensures { Apart (kind_named kind) n result }
{
    match kind {
        Kind::Polynomial | Kind::Rational => 1,
        Kind::System => n + 1,
        Kind::Quotients => 3,
    }
}

// The right-hand sides of a job, from the numbers as they are sent. By strides, so that the kind is not asked
// for in each row.
pub fn right_sides(h: Header, v: &[i64]) -> [i64; ROWS]
    requires { Limits h × (count h ≤ length v.now) }
    ensures { result ≡ flat_vector h.n (right_side_of h v.now) }
{
    let kind = Kind::of(h.kind).unwrap();
    let n = h.n;
    let mut z = [0i64; ROWS];
    z[0] = v[right_place(kind, n, 0)];
    let stride = right_stride(kind, n);
    let mut place = right_place(kind, n, 1);
    for i in 1..n {
        z[i] = v[place];
        place += stride;
    }
    z
}

// The residual bound, 17/32: residuals stay within OVER / UNDER, and the rule of light rows follows from it.
const OVER: u64 = 17;

const UNDER: u64 = 32;

// The largest residual that is within its bound, at the scale s.
fn residual_most(h: Header, s: usize) -> i64
    requires { Limits h × ScaleLimits h s }
    ensures { result ≡ pos (residual_most h s) }
{
    integers::to_signed(OVER * integers::pow2(job::inner_bits(h, s)) / UNDER)
}

// The largest weight that is light enough. The divisors are taken one by one: two of them are powers of 2,
// and the machine shifts.
fn largest_light(h: Header) -> i64
    requires { Limits h }
    ensures { result ≡ pos (largest_light h) }
{
    let r = integers::pow2(h.code + 1);
    let p = h.p as u64;
    integers::to_signed(integers::pow2(h.f) * (UNDER * p - OVER * (r - 1)) / UNDER / r / p)
}

// The room that is left after an entry e: its magnitude is taken off, for any i64, since the room before it
// is not negative.
fn room_after(room: i64, e: i64) -> i64
    requires { pos 0 ≤ℤ room }
    ensures { result ≡ room -ℤ pos (nat_abs e) }
{
    if e < 0 { room + e } else { room - e }
}

// The number, from 1, of the first row that weighs more than the limit. Each row starts with the limit as its
// room. A weight only grows from entry to entry, so a row is too heavy as soon as its
// room falls below 0.
fn first_heavy(g: &[i64; ENTRIES], n: usize, limit: i64) -> Option<usize>
    requires { (n ≤ 16) × (pos 0 ≤ℤ limit) }
    ensures { result ≡ row_given (first_row n (too_heavy limit n g.now)) }
{
    let mut heavy = None;
    'rows: for i in 0..n {
        let mut room = limit;
        for j in 0..n {
            room = room_after(room, g[16 * i + j]);
            if room < 0 {
                heavy = Some(i + 1);
                break 'rows;
            }
        }
    }
    heavy
}

// Whether the magnitude of e is above the bound, for any i64.
fn above(e: i64, bound: i64) -> bool
    requires { pos 0 ≤ℤ bound }
    ensures { result ≡ ltb (nat_abs bound) (nat_abs e) }
{
    if bound < e { true } else { e < 0 - bound }
}

// The number, from 1, of the first row whose number is of a magnitude above the bound.
fn first_large(z: &[i64; ROWS], n: usize, most: i64) -> Option<usize>
    requires { (n ≤ 16) × (pos 0 ≤ℤ most) }
    ensures { result ≡ row_given (first_row n (too_large most z.now)) }
{
    for i in 0..n {
        if above(z[i], most) {
            return Some(i + 1);
        }
    }
    None
}

// The number of the first row that is too heavy, of any matrix. Refusal 8 of a frame and its limit under 24 of
// a state.
pub fn heavy_row(g: &[i64; ENTRIES], h: Header) -> Option<usize>
    requires { Limits h }
    ensures { result ≡ row_given (heavy_row h (entry g.now)) }
{
    first_heavy(g, h.n, largest_light(h))
}

// The number of the first row whose residual is above its bound at the scale s.
pub fn large_residual(z: &[i64; ROWS], h: Header, s: usize) -> Option<usize>
    requires { Limits h × ScaleLimits h s }
    ensures { result ≡ row_given (large_residual h s (at z.now)) }
{
    first_large(z, h.n, residual_most(h, s))
}
