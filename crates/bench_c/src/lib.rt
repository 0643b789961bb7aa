// Functions for the bench alone, built by `rt lib` and linked beside the product's archive: a
// look into the state that a load makes, to compare it, and a trace written without its job, to measure that.
#![tactic(auto)]

ghost use Rattle.std.specs.Prelude.{◌≡◌};
ghost use Rattle.evaluator.specs.Evaluator.{loaded};
ghost use Rattle.trace.specs.Trace.{trace_reader_answer};
ghost use Rattle.bench_c.specs.Bench.{probed, Rewrites};

use job::ROWS;
use system::ENTRIES;
use trace::Record;

// An entry of the matrix, or past its columns the residual of the row. Rows and columns count from 0.
fn probe<'a>(g: &'a [i64; ENTRIES], z: &'a [i64; ROWS], row: usize, column: usize) -> i64
    ensures { result ≡ probed g.now z.now row column }
{
    if ROWS <= row {
        return 0;
    }
    if column < ROWS {
        return g[ROWS * row + column];
    }
    z[row]
}

// Loads a frame, and gives one number of the state. Of a refused frame it is 0.
#[unsafe(no_mangle)]
pub extern "C" fn bench_probe_load(frame: &[u8], row: usize, column: usize) -> i64
    ensures { result ≡ probed (loaded frame.now).state.g (loaded frame.now).state.z row column }
{
    match evaluator::load(frame) {
        Ok(s) => probe(&s.g, &s.z, row, column),
        Err(_) => 0,
    }
}

// Writes a record, and then so many times more into the same bytes. The writer is called from two places, so
// that the compiler keeps it as a function, and each write does all of its work.
fn rewrite(t: Record, more: u64, out: &mut [u8]) -> usize
    ensures { Rewrites t more out.old result out.new }
{
    let size = trace::write_trace(t, out).unwrap_or(0);
    for _ in 0..more {
        let _ = trace::write_trace(t, out);
    }
    size
}

// Reads a trace once, writes it back, and then so many times more. The bytes of the trace are given; 0 where
// it is refused, and then nothing is written.
#[unsafe(no_mangle)]
pub extern "C" fn bench_rewrite_trace(trace: &[u8], more: u64, out: &mut [u8]) -> usize
    ensures { Rewrites (trace_reader_answer trace.now).trace more out.old result out.new }
{
    match trace::read_trace(trace) {
        Ok(t) => rewrite(t, more, out),
        Err(_) => 0,
    }
}
