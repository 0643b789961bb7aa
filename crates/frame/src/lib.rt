// Job frames: reading and writing them (document 01, "Job frame" and "Refused because of the input").
//
// `read_frame` takes any bytes, and a lent list of words for the numbers, of which there are at most 272.
// `write_frame` takes any header, any numbers, and a lent buffer for the bytes, of which there are at most
// 1,431. The numbers by which they refuse, in their order, are in specs/Frame.antt, and in words in
// docs/FORMAT.md.
//
// Neither has a precondition. A refusal leaves every lent word and byte as it was; a row is given with 8 alone.
// Words past the numbers and bytes past
// the frame keep their values. What follows from the contracts, the round trips among it, is in
// specs/Theorems.antt.
//
// `unpack` makes a header and numbers of bytes, and `check_system` looks at the system that these set up: the
// frame reader and load both begin with them.
#![tactic(auto)]

ghost use Rattle.std.specs.Prelude.{◌≡◌, ◌<◌, ◌≤◌, length};
ghost use Rattle.bitfields.specs.Layout.{write};
ghost use Rattle.job.specs.Header.{count, Limits};
ghost use Rattle.system.specs.Inner.{Numbers};
ghost use Rattle.integers.specs.Flat.{entry};
ghost use Rattle.job.specs.Refused.{verdict_of, without_row};
ghost use Rattle.system.specs.Rows.{heavy_row};
ghost use Rattle.frame.specs.Frame.{frame_fields, frame_bits, frame_length, frame_read, frame_reader_answer, frame_reader_list, all_fit, number_checks, sent_checks, frame_writer_checks, frame_written, frame_writer_answer, frame_writer_buffer};
ghost use Rattle.job.specs.Kind.{most_numbers};
ghost use Rattle.job.specs.Rules.{scaled_steps_out_of_range};
ghost use Rattle.frame.specs.Inner.{checks_verdict, numbers_verdict, layout_refusal, unpack_answer, unpacked};
ghost use Rattle.frame.specs.Theorems.{ValidJob};

use job::{Header, NUMBERS, Refused};
use system::ENTRIES;

// How many bits the fields of a frame take.
fn frame_bits(h: Header) -> usize
    requires { Limits h }
    ensures { result ≡ frame_bits h }
{
    header::HEADER_BITS + (h.f + 2) * job::count(h)
}

// How many bytes a frame has.
pub fn frame_length(h: Header) -> usize
    requires { Limits h }
    ensures { result ≡ frame_length h }
{
    (frame_bits(h) + 7) / 8
}

// Refusals 1 to 7.
fn check_layout(s: &[u8]) -> Result<(), Refused>
    ensures { verdict_of result ≡ without_row (layout_refusal s.now) }
{
    if s.len() < header::HEADER_BYTES {
        return Err(Refused::TooShort);
    }
    let h = header::read_header(s);
    job::check_read(h)?;
    if s.len() != frame_length(h) {
        return Err(Refused::WrongLength);
    }
    if !bitfields::fill_is_zero(s, frame_bits(h)) {
        return Err(Refused::FillBitSet);
    }
    Ok(())
}

// The header, and the numbers in the first words of v; the others stay. Refused by 1 to 7, and then all words
// stay.
pub fn unpack(s: &[u8], v: &mut [i64]) -> Result<Header, Refused>
    requires { most_numbers ≤ length v.old }
    ensures { (frame_read result ≡ unpack_answer s.now) × (v.new ≡ unpacked s.now v.old) }
{
    check_layout(s)?;
    let h = header::read_header(s);
    bitfields::read_numbers(s, header::HEADER_BITS, h.f + 2, job::count(h), v);
    Ok(h)
}

// Refusals 8 and 15 of a job's system, the matrix g, and of its scale.
pub fn check_system(g: &[i64; ENTRIES], h: Header, scale: usize) -> Result<(), Refused>
    requires { Limits h × (scale ≤ 2) }
    ensures { verdict_of result ≡ numbers_verdict (heavy_row h (entry g.now)) (scaled_steps_out_of_range h scale) }
{
    if let Some(row) = system::heavy_row(g, h) {
        return Err(Refused::HeavyRow(row));
    }
    if job::scaled_steps_out_of_range(h, scale) {
        return Err(Refused::ScaledSteps);
    }
    Ok(())
}

// Refusals 8 and 15 of a header and its numbers.
fn check_job(h: Header, v: &[i64]) -> Result<(), Refused>
    requires { Limits h × Numbers (count h) v.now }
    ensures { verdict_of result ≡ checks_verdict (number_checks h v.now) h v.now }
{
    let z = system::right_sides(h, v);
    let mut g = [0i64; ENTRIES];
    system::place_matrix(&mut g, h, v);
    check_system(&g, h, scale::scale(&z, h))
}

// The frame reader: the header, and the numbers as sent in the first words of out.
pub fn read_frame(s: &[u8], out: &mut [i64]) -> Result<Header, Refused>
    ensures { (frame_read result ≡ frame_reader_answer s.now (length out.old)) × (out.new ≡ frame_reader_list s.now out.old) }
{
    let mut v = [0i64; NUMBERS];
    let h = unpack(s, &mut v)?;
    let n = job::count(h);
    check_job(h, &v[..n])?;
    if out.len() < n {
        return Err(Refused::TooLittleRoom);
    }
    out[..n].copy_from_slice(&v[..n]);
    Ok(h)
}

// Whether every number fits w bits.
fn all_fit(v: &[i64], w: usize) -> bool
    requires { (0 < w) × (w ≤ 48) }
    ensures { result ≡ all_fit w v.now }
{
    v.iter().all(|z| bitfields::fits(*z, w))
}

// Refusals 12, 13, 8 and 15, of any numbers.
fn check_numbers(h: Header, v: &[i64]) -> Result<(), Refused>
    requires { Limits h }
    ensures { verdict_of result ≡ checks_verdict (sent_checks h v.now) h v.now }
{
    if v.len() != job::count(h) {
        return Err(Refused::WrongCount);
    }
    if !all_fit(v, h.f + 2) {
        return Err(Refused::NumberTooLarge);
    }
    check_job(h, v)
}

// Every refusal of the frame writer, which is lent `room` bytes.
fn check_writer(h: Header, v: &[i64], room: usize) -> Result<(), Refused>
    ensures { verdict_of result ≡ checks_verdict (frame_writer_checks h v.now room) h v.now }
{
    job::check_header(h)?;
    check_numbers(h, v)?;
    if room < frame_length(h) {
        return Err(Refused::TooLittleRoom);
    }
    Ok(())
}

// Fills s, which is as long as the frame, with the frame of a valid job.
fn put_frame(h: Header, v: &[i64], s: &mut [u8])
    requires { ValidJob h v.now × (length s.old ≡ frame_length h) }
    ensures { s.new ≡ write (frame_fields h v.now) }
{
    bitfields::write_bytes(s, 0, header::HEADER_BYTES, header::header_number(h));
    bitfields::write_numbers(s, header::HEADER_BITS, h.f + 2, v);
}

// The frame writer: the frame of the header and the numbers in the first bytes of out, and how many bytes it
// has.
pub fn write_frame(h: Header, v: &[i64], out: &mut [u8]) -> Result<usize, Refused>
    ensures { (frame_written result ≡ frame_writer_answer h v.now (length out.old)) × (out.new ≡ frame_writer_buffer h v.now out.old) }
{
    check_writer(h, v, out.len())?;
    let n = frame_length(h);
    put_frame(h, v, &mut out[..n]);
    Ok(n)
}
