// The scale of a job (document 02, request 1): the smallest s, 0 or more, for which 2 × |B| is at most
// 2^f × r^s for every right-hand side B, found from the leading zeros of the largest |B|. specs/Scale.antt
// has the definition and says that it is the smallest.
#![tactic(auto)]

ghost use Rattle.std.specs.Prelude.{◌≡◌, ◌≤◌, ◌^◌};
ghost use Rattle.integers.specs.Flat.{at};
ghost use Rattle.job.specs.Header.{Limits};
ghost use Rattle.scale.specs.Scale.{scale};
ghost use Rattle.scale.specs.Inner.{SmallSides, peak, Exponent};

use job::{Header, ROWS};

// The largest magnitude of the rows below n.
fn largest(z: &[i64; ROWS], n: usize) -> u64
    requires { n ≤ 16 }
    ensures { result ≡ peak n (at z.now) }
{
    let mut top: u64 = 0;
    for i in 0..n {
        let a = z[i].unsigned_abs();
        if top < a {
            top = a;
        }
    }
    top
}

// The smallest e with a at most 2^e: the length of a in bits, or one less where a is a power of 2.
fn exponent(a: u64) -> usize
    requires { a ≤ 2 ^ 41 }
    ensures { Exponent a result }
{
    let length = (64 - u64::leading_zeros(a)) as usize;
    if 2 * a == integers::pow2(length) {
        length - 1
    } else {
        length
    }
}

// The scale of a job with the right-hand sides z. 2 × |B| is at most 2^f × r^s in every row where 2^e, the
// smallest power of 2 that is no less than any |B|, is below 2^f × r^s.
pub fn scale(z: &[i64; ROWS], h: Header) -> usize
    requires { Limits h × SmallSides h.n z.now }
    ensures { result ≡ scale h (at z.now) }
{
    let e = exponent(largest(z, h.n));
    if e < h.f {
        return 0;
    }
    if e < h.f + (h.code + 1) {
        return 1;
    }
    2
}
