// One column of the matrix added to the rows' sums, with its digit of the step before (document 02, request
// 5). Steps add one column after the other so, but for the full columns of radix 2, and so does the call that
// shows it. A column whose digit is 0 is skipped: its rows keep their sums.
#![tactic(auto)]

ghost use Rattle.std.specs.Prelude.{◌≡◌, ◌+◌, ◌-◌, ◌^◌, ◌<◌, ◌+ℤ◌, ◌*ℤ◌};
ghost use Rattle.integers.specs.Sum.{Within};
ghost use Rattle.integers.specs.Flat.{at, stores};
ghost use Rattle.column.specs.Column.{MayAddColumn, column_added, entries_added};

use job::ROWS;
use system::ENTRIES;

// A row's sum s after a column with the entry e and the digit d. The digit is asked for here, row by row: a
// jump over a whole column that is skipped cannot be foreseen, and costs more than the column.
pub fn sum_after(s: i64, e: i64, d: i64) -> i64
    requires { Within s (2 ^ 48) × Within e (2 ^ 40) × Within d 15 }
    ensures { result ≡ s +ℤ e *ℤ d }
{
    if d == 0 { s } else { s + e * d }
}

// Adds column j, whose digit is d, to the sums of the rows from lo on and below hi.
pub fn add_column(g: &[i64; ENTRIES], j: usize, lo: usize, hi: usize, d: i64, s: &mut [i64; ROWS])
    requires { MayAddColumn g.now j lo hi d s.old }
    ensures { s.new ≡ stores s.old (λ t. lo + t) (column_added g.now j lo d s.old) (hi - lo) }
{
    for i in lo..hi {
        s[i] = sum_after(s[i], g[16 * i + j], d);
    }
}

// Where the entries of a column stand that is added in every step, looked up once: its first, and the row in
// which it is; the row of the next one, and the row after the last. A curve's columns have one or two.
#[derive(Clone, Copy)]
pub struct Span {
    pub first: i64,
    pub start: usize,
    pub next: usize,
    pub end: usize,
}

// Adds column j by its entries: the first, and the rows from the next one on. Those between are passed over.
pub fn add_entries(g: &[i64; ENTRIES], j: usize, span: Span, d: i64, s: &mut [i64; ROWS])
    requires { MayAddColumn g.now j span.next span.end d s.old × (span.start < span.next) × (span.start < 16) × Within (at s.old span.start) (2 ^ 48) × Within span.first (2 ^ 40) }
    ensures { s.new ≡ entries_added g.now span.first j span.start span.next span.end d s.old }
{
    let start = span.start;
    s[start] = sum_after(s[start], span.first, d);
    add_column(g, j, span.next, span.end, d, s);
}
