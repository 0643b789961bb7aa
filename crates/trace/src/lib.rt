// Traces: the trace reader, the record of a state, and the trace writer.
//
// A trace is the job's first three bytes, the steps made in 6 bits, the digits in 5 bits each, step by step
// and in a step row by row, and zeros to the byte. It has 4 to 604 bytes, so 604 bytes of room are enough for
// every trace.
//
// Each of the three calls takes anything: any bytes, any state, any record. Refused, it gives no record, or
// writes nothing and leaves every lent byte as it was. Its contract is an equality with a
// definition of specs/Trace.antt, which also has the refusals of each call in their order;
// specs/Theorems.antt has what follows.
#![tactic(auto)]

ghost use Rattle.std.specs.Prelude.{◌≡◌};
ghost use Rattle.job.specs.Header.{Limits};
ghost use Rattle.trace.specs.Trace.{too_many_steps};

use job::Header;
use state::DIGITS;

mod eights; // eight digits at once
mod reader;
mod recorder;
mod writer;

pub use reader::read_trace;
pub use recorder::record_of;
pub use writer::write_trace;

// A digit is at least -15 and at most 15.
const DIGIT_BITS: usize = 5;

// The steps made are at most 60.
const STEPS_BITS: usize = 6;

// The bits before the digits: the header's three bytes, and the steps made.
const HEAD_BITS: usize = 30;

// The header fields, the steps made k, and the digits: step j, from 1, of row i at 16 (j - 1) + i. A record
// that a call gives has 0 past step k and past row n.
#[derive(Clone, Copy)]
pub struct Record {
    pub header: Header,
    pub k: usize,
    pub digits: [i8; DIGITS],
}

// 10, of the reader and the writer: more steps than a trace of the job may hold, or than 60 bits hold.
pub(crate) fn too_many_steps(h: Header, k: usize) -> bool
    requires { Limits h }
    ensures { result ≡ too_many_steps h k }
{
    job::trace_steps(h) < k || job::past_60_bits(h.code, k)
}
