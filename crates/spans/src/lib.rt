// The rows' sums with the digits of the step before, one column after the other, each multiplied by its
// digit. Of a column only its first entry is looked at, and the rows from its second one to its last: a
// curve's columns have one entry or two, but for column 0. A column whose digit is 0 is skipped: its rows
// keep their sums.
#![tactic(auto)]

ghost use Rattle.std.specs.Prelude.{◌≡◌, ◌<◌, ◌≤◌, length};
ghost use Rattle.integers.specs.Flat.{filled};
ghost use Rattle.spans.specs.Inner.{Summed, MaySumRows, Start, Next, End, IsSpan, AreSpans, MayBegin, Begun, first_product};

use column::Span;
use job::ROWS;
use system::ENTRIES;

// The first row below n in which column j has an entry other than 0, or the last row where there is none.
// Rows are looked at two in a turn, which takes less time; an odd n leaves the last row, which is then given
// unseen.
fn column_start(g: &[i64; ENTRIES], j: usize, n: usize) -> usize
    requires { (j < 16) × (1 ≤ n) × (n ≤ 16) }
    ensures { Start n g.now j result }
{
    for pair in 0..n / 2 {
        let row = 2 * pair;
        if g[16 * row + j] != 0 {
            return row;
        }
        if g[16 * (row + 1) + j] != 0 {
            return row + 1;
        }
    }
    n - 1
}

// The row after the last one below n in which column j has an entry other than 0, or 0 where there is none.
// An odd n leaves row 0 unseen, and then it is 1.
fn column_end(g: &[i64; ENTRIES], j: usize, n: usize) -> usize
    requires { (j < 16) × (n ≤ 16) }
    ensures { End n g.now j result }
{
    for pair in 0..n / 2 {
        let row = n - 2 * pair;
        if g[16 * (row - 1) + j] != 0 {
            return row;
        }
        if g[16 * (row - 2) + j] != 0 {
            return row - 1;
        }
    }
    n % 2
}

// The first row after row lo and below hi in which column j has an entry other than 0; where there is none,
// a row from hi on.
fn column_next(g: &[i64; ENTRIES], j: usize, lo: usize, hi: usize) -> usize
    requires { (j < 16) × (lo < 16) × (hi ≤ 16) }
    ensures { Next g.now j lo result }
{
    for next in lo + 1..hi {
        if g[16 * next + j] != 0 {
            return next;
        }
    }
    hi.max(lo + 1)
}

// Where the entries of column j stand. Those of a column with none are the first one, which is 0, alone.
fn column_span(g: &[i64; ENTRIES], j: usize, n: usize) -> Span
    requires { (j < 16) × (1 ≤ n) × (n ≤ 16) }
    ensures { IsSpan n g.now j result }
{
    let start = column_start(g, j, n);
    let end = column_end(g, j, n);
    let first = g[16 * start + j];
    let next = column_next(g, j, start, end);
    Span {
        first,
        start,
        next,
        end,
    }
}

// The same of each column. Most columns of a curve have one entry, and a step then need not look into the
// matrix.
pub fn column_spans(g: &[i64; ENTRIES], n: usize) -> [Span; ROWS]
    requires { n ≤ 16 }
    ensures { AreSpans n g.now result }
{
    let mut spans = [Span {
        first: 0,
        start: 0,
        next: 0,
        end: 0,
    }; ROWS];
    for j in 0..n {
        spans[j] = column_span(g, j, n);
    }
    spans
}

// The products of column 0, whose digit is d, in the rows below n; the other words of s stay.
fn first_products(g: &[i64; ENTRIES], d: i64, n: usize, s: &mut [i64; ROWS])
    requires { (n ≤ 16) × MayBegin n g.now d }
    ensures { s.new ≡ filled (first_product g.now d) s.old n }
{
    for i in 0..n {
        s[i] = column::sum_after(0, g[16 * i], d);
    }
}

// Begins the sums of the rows below n with column 0, whose digit is d. It has no entry before its span and
// none after it; that of a polynomial or a sum of quotients has none at all, and then the sums begin with 0.
fn begin_sums(g: &[i64; ENTRIES], span: Span, d: i64, n: usize, s: &mut [i64; ROWS])
    requires { (n ≤ 16) × MayBegin n g.now d × IsSpan n g.now 0 span }
    ensures { Begun n g.now d s.new }
{
    if span.end <= span.start {
        *s = [0i64; ROWS];
        return;
    }
    first_products(g, d, n, s);
}

// The sum of each row below n with the digits d, in s, one column after the other. What the other words of s
// are is not said.
pub fn column_sums(
    g: &[i64; ENTRIES],
    spans: &[Span; ROWS],
    d: &[i8; ROWS],
    n: usize,
    s: &mut [i64; ROWS],
)
    requires { (1 ≤ n) × (n ≤ 16) × MaySumRows n g.now d.now × AreSpans n g.now spans.now }
    ensures { (length s.new ≡ 16) × Summed n g.now d.now s.new }
{
    begin_sums(g, spans[0], i64::from(d[0]), n, s);
    for j in 1..n {
        column::add_entries(g, j, spans[j], i64::from(d[j]), s);
    }
}
