// Bit fields of a byte slice, most significant bit first.
//
// A format is a list of widths, 1 to 48 bits each. To read one, look at the slice's length and at
// `fill_is_zero`, then call `read_field` at each field's bit position, or `read_numbers` for a run
// of numbers with a sign, all of one width, in two's complement. To write one, call `write_field`
// and `write_numbers` from the front to the back: each keeps the bits before its place, fills the
// last byte that it touches with zeros, and leaves the bytes past that alone.
//
// Each contract is an equality with a definition of specs/Layout.antt or specs/Twos.antt. That what
// was written is read, and what was read is written, is said in specs/RoundTrips.antt for every list
// of widths at once, so that a format's own round trip is a citation; proofs/Spelling.antt,
// Reading.antt, Writing.antt and Twos.antt have the other laws, and Example.antt a worked example.
#![tactic(auto)]

ghost use Rattle.std.specs.Prelude.{◌≡◌, [], ◌∷◌, ◌++◌, map, ◌+◌, ◌*◌, ◌^◌, ◌<◌, ◌≤◌, eqb, length, take, drop};
ghost use Rattle.std.specs.Int.Signed.{mag};
ghost use Rattle.bitfields.specs.Layout.{bytes_for, fill, number8, octets, field, put, each};
ghost use Rattle.bitfields.specs.Twos.{encode, decode, Fits, fitsb, AllFit, numbers};

// The number that n bytes from the byte `at` on spell.
pub fn read_bytes(s: &[u8], at: usize, n: usize) -> u64
    requires { (at + n ≤ length s.now) × (n ≤ 8) }
    ensures { result ≡ number8 (take n (drop at s.now)) }
{
    let mut x: u64 = 0;
    for j in 0..n {
        x = x * 256 + u64::from(s[at + j]);
    }
    x
}

// The field of w bits at the bit `at`, from the window of n bytes at the byte k, which holds it.
fn read_window(s: &[u8], k: usize, n: usize, at: usize, w: usize) -> u64
    requires { (k + n ≤ length s.now) × (n ≤ 8) × (8 * k ≤ at) × (at + w ≤ 8 * (k + n)) × (0 < w) × (w ≤ 48) }
    ensures { result ≡ field s.now at w }
{
    (read_bytes(s, k, n) >> ((8 * n - w - (at - 8 * k)) as u64)) % integers::pow2(w)
}

// The first byte of a window of 8 bytes, of n, that holds the w bits at the bit `at`.
fn window_of_8(n: usize, at: usize, w: usize) -> usize
    requires { (8 ≤ n) × (at + w ≤ 8 * n) × (w ≤ 48) }
    ensures { (result + 8 ≤ n) × (8 * result ≤ at) × (at + w ≤ 8 * (result + 8)) }
{
    if at / 8 < n - 8 { at / 8 } else { n - 8 }
}

// The field of w bits at the bit `at`. A slice of 8 bytes and more is read by 8 bytes at once.
pub fn read_field(s: &[u8], at: usize, w: usize) -> u64
    requires { (at + w ≤ 8 * length s.now) × (0 < w) × (w ≤ 48) }
    ensures { result ≡ field s.now at w }
{
    if s.len() < 8 {
        return read_window(s, 0, s.len(), at, w);
    }
    read_window(s, window_of_8(s.len(), at, w), 8, at, w)
}

// Puts the n low bytes of x at the byte `at`.
pub fn write_bytes(s: &mut [u8], at: usize, n: usize, x: u64)
    requires { (at + n ≤ length s.old) × (n ≤ 8) }
    ensures { s.new ≡ take at s.old ++ octets n x ++ drop (at + n) s.old }
{
    for j in 0..n {
        s[at + j] = ((x >> ((8 * (n - 1 - j)) as u64)) % 256) as u8;
    }
}

// The same. The counts that are most frequent are told one by one: for a known count the compiler makes whole
// words of the bytes.
fn write_window(s: &mut [u8], at: usize, n: usize, x: u64)
    requires { (at + n ≤ length s.old) × (n ≤ 8) }
    ensures { s.new ≡ take at s.old ++ octets n x ++ drop (at + n) s.old }
{
    if n == 4 {
        write_bytes(s, at, 4, x);
        return;
    }
    if n == 6 {
        write_bytes(s, at, 6, x);
        return;
    }
    write_bytes(s, at, n, x);
}

// Puts the w bits of v at the bit `at`: the bits before stay, zeros fill the last byte, and the bytes past it
// stay.
pub fn write_field(s: &mut [u8], at: usize, w: usize, v: u64)
    requires { (at + w ≤ 8 * length s.old) × (0 < w) × (w ≤ 48) × (v < 2 ^ w) }
    ensures { s.new ≡ put s.old at ((w, v) ∷ []) }
{
    let k = at / 8;
    let r = at % 8;
    let n = (r + w + 7) / 8;
    let kept = u64::from(s[k]) >> ((8 - r) as u64);
    let x = (kept * integers::pow2(w) + v) * integers::pow2(8 * n - (r + w));
    write_window(s, k, n, x);
}

// n, of n and of -(n + 1): the bits of z beside its sign.
fn bits_beside_sign(z: i64) -> u64
    ensures { result ≡ mag z }
{
    if z < 0 {
        integers::to_unsigned(-1 - z)
    } else {
        integers::to_unsigned(z)
    }
}

// Whether w bits can hold z.
pub fn fits(z: i64, w: usize) -> bool
    requires { (0 < w) × (w ≤ 48) }
    ensures { result ≡ fitsb w z }
{
    bits_beside_sign(z) < integers::pow2(w - 1)
}

// The number that the w bits of x stand for: x, less 2 ^ w where its first bit is set. That is x plus half of
// 2 ^ w, modulo 2 ^ w, less the half: there is no branch, since signs cannot be foreseen.
pub fn decode(x: u64, w: usize) -> i64
    requires { (0 < w) × (w ≤ 48) × (x < 2 ^ w) }
    ensures { result ≡ decode w x }
{
    let half = integers::pow2(w - 1);
    integers::to_signed((x + half) % integers::pow2(w)) - integers::to_signed(half)
}

// The w bits that stand for z.
pub fn encode(z: i64, w: usize) -> u64
    requires { (0 < w) × (w ≤ 48) × Fits w z }
    ensures { result ≡ encode w z }
{
    if z < 0 {
        integers::pow2(w) - 1 - bits_beside_sign(z)
    } else {
        bits_beside_sign(z)
    }
}

// Reads n numbers of w bits from the bit `at` on into the first n words of out; the others stay. The bit
// position is stepped past the last number, so the length of the slice is bounded: 65,536 bytes are more than
// any format has.
pub fn read_numbers(s: &[u8], at: usize, w: usize, n: usize, out: &mut [i64])
    requires { (at + w * n ≤ 8 * length s.now) × (n ≤ length out.old) × (0 < w) × (w ≤ 48) × (length s.now ≤ 65536) }
    ensures { out.new ≡ numbers s.now at w n ++ drop n out.old }
{
    let mut p = at;
    for i in 0..n {
        out[i] = decode(read_field(s, p, w), w);
        p += w;
    }
}

// Puts the numbers, w bits each, at the bit `at` on, as `write_field` puts one.
pub fn write_numbers(dst: &mut [u8], at: usize, w: usize, nums: &[i64])
    requires { (at + w * length nums.now ≤ 8 * length dst.old) × (0 < length nums.now) × (0 < w) × (w ≤ 48) × (length dst.old ≤ 65536) × AllFit w nums.now }
    ensures { dst.new ≡ put dst.old at (each w (map (encode w) nums.now)) }
{
    let mut p = at;
    for z in nums {
        write_field(dst, p, w, encode(*z, w));
        p += w;
    }
}

// Whether the bits that b bits leave over in the last byte of s are all 0.
pub fn fill_is_zero(s: &[u8], b: usize) -> bool
    requires { (bytes_for b ≡ length s.now) × (0 < b) }
    ensures { result ≡ eqb (field s.now b (fill b)) 0 }
{
    u64::from(s[s.len() - 1]) % integers::pow2((8 - b % 8) % 8) == 0
}
