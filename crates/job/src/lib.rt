// The vocabulary of jobs: the header and its limits, which refusals 2, 3, 4, 5 and 14 look at, and how many
// numbers a job has.
#![tactic(auto)]

ghost use Rattle.std.specs.Prelude.{◌≡◌, true, ◌*◌, ◌≤◌, ◌^◌};
ghost use Rattle.job.specs.Header.{
  radix,
  count,
  frame_code,
  trace_code,
  unknown_kind,
  digit_out_of_range,
  fraction_out_of_range,
  steps_out_of_range,
  order_out_of_range,
  range_checks,
  read_checks_knowing,
  header_checks_knowing,
  read_checks,
  header_checks,
  trace_read_checks,
  trace_header_checks,
  zero_header,
  past_60_bits,
  Limits,
};
ghost use Rattle.job.specs.Refusal.{first_refusal};
ghost use Rattle.job.specs.Refused.{refusal_of};
ghost use Rattle.job.specs.Rules.{last_step, most_scale, trace_steps, scaled_steps_out_of_range, scale_out_of_range, ScaleLimits, scale_factor, inner_unit};

mod kinds; // kinds.rt: the kinds of a job
mod refusals; // refusals.rt: why a call refuses

pub use kinds::Kind;
pub use refusals::Refused;

// The largest order: the rows, and the columns, that arrays have room for.
pub const ROWS: usize = 16;

// The most steps of a job, which radix 2 has, at 60 bits a row.
pub const STEPS: usize = 60;

// The most numbers of a job: a system's 16 rows, each with its right-hand side.
pub const NUMBERS: usize = ROWS * (ROWS + 1);

// The header of a job frame, with the order n as a number from 1: kind (0 polynomial, 1 rational, 2 system,
// 3 sum of quotients), radix code, largest digit p, fraction bits f, order n, digits m.
#[derive(Clone, Copy, PartialEq, Eq, Debug)]
pub struct Header {
    pub kind: usize,
    pub code: usize,
    pub p: usize,
    pub f: usize,
    pub n: usize,
    pub m: usize,
}

// The header whose fields are all 0, which goes with a refusal.
pub fn no_header() -> Header
    ensures { result ≡ zero_header }
{
    Header {
        kind: 0,
        code: 0,
        p: 0,
        f: 0,
        n: 0,
        m: 0,
    }
}

// The radix 2, 4, 8 or 16 of a radix code. Made by a shift, so that the compiler knows it for a power of 2, and
// multiplies by it with a shift: in readings each product waits for the one before.
pub fn radix(code: usize) -> usize
    requires { code ≤ 3 }
    ensures { result ≡ radix code }
{
    integers::pow2(code + 1) as usize
}

// How many numbers follow the header: none where its kind is past the table.
pub fn count(h: Header) -> usize
    requires { (1 ≤ h.n) × (h.n ≤ 16) }
    ensures { result ≡ count h }
{
    match Kind::of(h.kind) {
        Some(kind) => kind.count(h.n),
        None => 0,
    }
}

// Whether k digits take more than 60 bits: k × log2(r) above 60.
pub fn past_60_bits(code: usize, k: usize) -> bool
    requires { code ≤ 3 }
    ensures { result ≡ past_60_bits code k }
{
    60 / (code + 1) < k
}

// The last step of a job of scale s: one more than its m digits, and s more.
pub fn last_step(h: Header, s: usize) -> usize
    requires { (h.m ≤ 60) × (s ≤ 2) }
    ensures { result ≡ last_step h s }
{
    h.m + 1 + s
}

// The largest scale that a job may have.
fn most_scale(code: usize) -> usize
    ensures { result ≡ most_scale code }
{
    if code == 0 { 2 } else { 1 }
}

// The most steps that a trace may hold, if 60 bits hold them.
pub fn trace_steps(h: Header) -> usize
    requires { h.m ≤ 60 }
    ensures { result ≡ trace_steps h }
{
    last_step(h, 2)
}

// 15: (m + 1 + s) × log2(r) above 60.
pub fn scaled_steps_out_of_range(h: Header, s: usize) -> bool
    requires { Limits h × (s ≤ 2) }
    ensures { result ≡ scaled_steps_out_of_range h s }
{
    past_60_bits(h.code, last_step(h, s))
}

// Under 24: the scale above its limit, or the steps above 15's.
pub fn scale_out_of_range(h: Header, s: usize) -> bool
    requires { Limits h }
    ensures { result ≡ scale_out_of_range h s }
{
    if most_scale(h.code) < s {
        return true;
    }
    scaled_steps_out_of_range(h, s)
}

// log2 of r^s.
fn scale_bits(h: Header, s: usize) -> usize
    requires { Limits h × ScaleLimits h s }
    ensures { (2 ^ result ≡ scale_factor h s) × (result ≤ 4) }
{
    s * (h.code + 1)
}

// r × r^s: how many units of document 01's w make one of a row's sum. Made by a shift, as `radix` is:
// a product by it then takes no longer than a shift.
pub fn sum_factor(h: Header, s: usize) -> usize
    requires { Limits h × ScaleLimits h s }
    ensures { result ≡ radix h.code * scale_factor h s }
{
    integers::pow2((h.code + 1) * (s + 1)) as usize
}

// The fraction bits of the residuals inside a state: log2 of the inner unit.
pub fn inner_bits(h: Header, s: usize) -> usize
    requires { Limits h × ScaleLimits h s }
    ensures { (2 ^ result ≡ inner_unit h s) × (4 ≤ result) × (result ≤ 44) }
{
    h.f + scale_bits(h, s)
}

// Whether load, the frame reader and the frame writer take the radix code, and a state may have it.
fn frame_code(code: usize) -> bool
    ensures { result ≡ frame_code code }
{
    code <= 3
}

// Whether the trace reader and the trace writer take the radix code.
fn trace_code(code: usize) -> bool
    ensures { result ≡ trace_code code }
{
    code <= 3
}

// 2: a kind past its table, or a radix code that the call does not know.
fn unknown_kind(h: Header, known: bool) -> bool
    ensures { result ≡ unknown_kind known h }
{
    Kind::of(h.kind).is_none() || !known
}

// 14: n outside 1 to 16.
pub fn order_out_of_range(h: Header) -> bool
    ensures { result ≡ order_out_of_range h }
{
    h.n < 1 || ROWS < h.n
}

// 3: p outside r/2 to r - 1.
fn digit_out_of_range(h: Header) -> bool
    requires { h.code ≤ 3 }
    ensures { result ≡ digit_out_of_range h }
{
    let r = radix(h.code);
    h.p < r / 2 || r - 1 < h.p
}

// 4: f outside 4 to 40.
fn fraction_out_of_range(h: Header) -> bool
    ensures { result ≡ fraction_out_of_range h }
{
    h.f < 4 || 40 < h.f
}

// 5: m is 0, or (m + 1) × log2(r) above 60. An m past 60 is looked at first, so that m + 1 cannot overflow.
fn steps_out_of_range(h: Header) -> bool
    requires { h.code ≤ 3 }
    ensures { result ≡ steps_out_of_range h }
{
    if STEPS < h.m {
        return true;
    }
    h.m == 0 || past_60_bits(h.code, h.m + 1)
}

// Refusals 3, 4 and 5.
fn check_ranges(h: Header) -> Result<(), Refused>
    requires { h.code ≤ 3 }
    ensures { refusal_of result ≡ first_refusal (range_checks h) }
{
    if digit_out_of_range(h) {
        return Err(Refused::DigitOutOfRange);
    }
    if fraction_out_of_range(h) {
        return Err(Refused::FractionOutOfRange);
    }
    if steps_out_of_range(h) {
        return Err(Refused::StepsOutOfRange);
    }
    Ok(())
}

// Refusals 2 to 5, where the radix code is known to the call or not.
fn check_read_knowing(h: Header, known: bool) -> Result<(), Refused>
    requires { known ≡ true → h.code ≤ 3 }
    ensures { refusal_of result ≡ first_refusal (read_checks_knowing known h) }
{
    if unknown_kind(h, known) {
        return Err(Refused::UnknownKind);
    }
    check_ranges(h)
}

// Refusals 2, 14, 3, 4 and 5, where the radix code is known to the call or not.
fn check_header_knowing(h: Header, known: bool) -> Result<(), Refused>
    requires { known ≡ true → h.code ≤ 3 }
    ensures { refusal_of result ≡ first_refusal (header_checks_knowing known h) }
{
    if unknown_kind(h, known) {
        return Err(Refused::UnknownKind);
    }
    if order_out_of_range(h) {
        return Err(Refused::OrderOutOfRange);
    }
    check_ranges(h)
}

// Refusals 2 to 5, of the header of a frame that was read.
pub fn check_read(h: Header) -> Result<(), Refused>
    ensures { refusal_of result ≡ first_refusal (read_checks h) }
{
    check_read_knowing(h, frame_code(h.code))
}

// Refusals 2, 14, 3, 4 and 5, of any numbers for the header of a frame or a state.
pub fn check_header(h: Header) -> Result<(), Refused>
    ensures { refusal_of result ≡ first_refusal (header_checks h) }
{
    check_header_knowing(h, frame_code(h.code))
}

// Refusals 2 to 5, of the header of a trace that was read.
pub fn check_trace_read(h: Header) -> Result<(), Refused>
    ensures { refusal_of result ≡ first_refusal (trace_read_checks h) }
{
    check_read_knowing(h, trace_code(h.code))
}

// Refusals 2, 14, 3, 4 and 5, of any numbers for the header of a trace.
pub fn check_trace_header(h: Header) -> Result<(), Refused>
    ensures { refusal_of result ≡ first_refusal (trace_header_checks h) }
{
    check_header_knowing(h, trace_code(h.code))
}
