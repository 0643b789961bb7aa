// Eight digits at once: as one number of 40 bits, the first digit in its highest 5 bits.
ghost use Rattle.std.specs.Prelude.{◌≡◌, ◌+◌, ◌-◌, ◌*◌, ◌%◌, ◌^◌, ◌<◌, ◌≤◌, length};
ghost use Rattle.std.proofs.lemmas.List.Edits.{sets};
ghost use Rattle.bitfields.specs.Layout.{field, number};
ghost use Rattle.bitfields.specs.Twos.{encode, decode, Fits};
ghost use Rattle.state.specs.State.{digit_places};
ghost use Rattle.trace.specs.Inner.{digits_from, digits_in, digit_fields, DigitsFit, digit_byte, Bytewise};

use state::DIGITS;

// The digit that a byte stands for, without a branch on its sign.
fn digit_of_byte(u: u64) -> i8
    requires { u ≡ digit_byte (u % 32) }
    ensures { result ≡ decode 5 (u % 32) }
{
    integers::narrow(integers::to_signed((u + 128) % 256) - 128)
}

// The last 5 bits of a number. They stand for it if it is a digit.
fn digit_bits(z: i8) -> u64
    ensures { (result < 32) × (Fits 5 z → result ≡ encode 5 z) }
{
    integers::to_unsigned(i64::from(z) + 128) % 32
}

// The eight fields of a number as eight bytes, all at once: its halves are set apart, then its quarters, then
// the single fields, and at last each sign bit is repeated to the front of its byte.
fn eight_bytes(u: u64) -> u64
    requires { u < 2 ^ 40 }
    ensures { Bytewise u result }
{
    let halves = u + (u >> 20) * 0xfff00000;
    let quarters = halves + ((halves >> 10) & 0x000003ff000003ff) * 0xfc00;
    let fields = quarters + ((quarters >> 5) & 0x001f001f001f001f) * 0xe0;
    fields + (fields & 0x1010101010101010) * 14
}

// Stores the eight digits that u spells, from the place `at` on.
pub(crate) fn store_eight(u: u64, d: &mut [i8; DIGITS], at: usize)
    requires { (u < 2 ^ 40) × (at + 8 ≤ digit_places) }
    ensures { d.new ≡ sets d.old at (digits_in 8 u) }
{
    let y = eight_bytes(u);
    for x in 0..8 {
        d[at + x] = digit_of_byte((y >> ((8 * (7 - x)) as u64)) % 256);
    }
}

// The c digits at the bit p of b as the first of eight, with zeros after them.
pub(crate) fn read_eight(b: &[u8], p: usize, c: usize) -> u64
    requires { (p + 5 * c ≤ 8 * length b.now) × (0 < c) × (c ≤ 8) }
    ensures { result ≡ field b.now p (5 * c) * 2 ^ (5 * (8 - c)) }
{
    bitfields::read_field(b, p, 5 * c) * integers::pow2(5 * (8 - c))
}

// The number that the c digits from the place `at` on spell. Eight digits are taken whatever c is, and then
// the bits of those past the c-th are dropped.
pub(crate) fn digits_number(d: &[i8; DIGITS], at: usize, c: usize) -> u64
    requires { (c ≤ 8) × (at + 8 ≤ digit_places) × DigitsFit d.now at c }
    ensures { result ≡ number (digit_fields (digits_from d.now at c)) }
{
    let mut v: u64 = 0;
    for x in 0..8 {
        v = v * 32 + digit_bits(d[at + x]);
    }
    v >> ((5 * (8 - c)) as u64)
}
