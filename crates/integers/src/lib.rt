// Signed integers: the casts that code on them needs, each a function with its clean value as its promise; in
// specs/ sums, products and arrays, and in proofs/ the laws that proofs about them need. proofs/Guide.antt
// shows the ring normaliser, linear inequalities and machine arithmetic at work, a line each.
#![tactic(auto)]

ghost use Rattle.std.specs.Prelude.{◌≡◌, ◌<◌, ◌^◌, pos, nat_abs, ◌≤ℤ◌};
ghost use Rattle.integers.specs.Sum.{Within};

// An i64 that fits an i8, as one.
pub fn narrow(z: i64) -> i8
    requires { Within z 127 }
    ensures { result ≡ z }
{
    z as i8
}

// A natural number as an i64.
pub fn to_signed(n: u64) -> i64
    requires { n < 2 ^ 63 }
    ensures { result ≡ pos n }
{
    n as i64
}

// An i64 that is not negative, as a natural number.
pub fn to_unsigned(z: i64) -> u64
    requires { pos 0 ≤ℤ z }
    ensures { result ≡ nat_abs z }
{
    z as u64
}

// 2 to the n.
pub fn pow2(n: usize) -> u64
    requires { n < 64 }
    ensures { result ≡ 2 ^ n }
{
    1u64 << (n as u64)
}
