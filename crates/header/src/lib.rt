// The header that a job frame and a trace begin with (document 01, "Job frame"): six fields in 24 bits, the
// order as n - 1. Reading makes a header of any three bytes, so a header that was read can be outside the
// limits; one within the limits, written and read, is the same.
#![tactic(auto)]

ghost use Rattle.std.specs.Prelude.{◌≡◌, ◌≤◌, length};
ghost use Rattle.bitfields.specs.Layout.{number};
ghost use Rattle.job.specs.Header.{Limits};
ghost use Rattle.header.specs.Header.{header_fields, header_of};

use job::Header;

// The bits and the bytes of a header.
pub const HEADER_BITS: usize = 24;

pub const HEADER_BYTES: usize = 3;

// How many values each field has: 2 to its width.
const KIND_VALUES: usize = 4;

const CODE_VALUES: usize = 4;

const DIGIT_VALUES: usize = 16;

const FRACTION_VALUES: usize = 64;

const ORDER_VALUES: usize = 16;

const STEP_VALUES: usize = 64;

// What 1 in a field counts in the number of all 24 bits: the values of the fields after it, multiplied.
const ORDER_UNIT: usize = STEP_VALUES;

const FRACTION_UNIT: usize = ORDER_VALUES * ORDER_UNIT;

const DIGIT_UNIT: usize = FRACTION_VALUES * FRACTION_UNIT;

const CODE_UNIT: usize = DIGIT_VALUES * DIGIT_UNIT;

const KIND_UNIT: usize = CODE_VALUES * CODE_UNIT;

// The header that the first three bytes spell.
pub fn read_header(s: &[u8]) -> Header
    requires { 3 ≤ length s.now }
    ensures { result ≡ header_of s.now }
{
    let x = bitfields::read_bytes(s, 0, HEADER_BYTES) as usize;
    Header {
        kind: x / KIND_UNIT % KIND_VALUES,
        code: x / CODE_UNIT % CODE_VALUES,
        p: x / DIGIT_UNIT % DIGIT_VALUES,
        f: x / FRACTION_UNIT % FRACTION_VALUES,
        n: x / ORDER_UNIT % ORDER_VALUES + 1,
        m: x % STEP_VALUES,
    }
}

// The number of 24 bits that the header's fields spell.
pub fn header_number(h: Header) -> u64
    requires { Limits h }
    ensures { result ≡ number (header_fields h) }
{
    (((((h.kind * CODE_VALUES + h.code) * DIGIT_VALUES + h.p) * FRACTION_VALUES + h.f)
        * ORDER_VALUES
        + (h.n - 1))
        * STEP_VALUES
        + h.m) as u64
}
