// How many additions the steps make (document 02, request 6). Each step counts for each column whether its
// digit is other than 0; these counts times the columns' entries other than 0, which are looked at once and
// not in each step, are the additions.
#![tactic(auto)]

ghost use Rattle.std.specs.Prelude.{◌≡◌, ◌+◌, ◌-◌, ◌*◌, ◌<◌, ◌≤◌, get_or};
ghost use Rattle.integers.specs.Flat.{at};
ghost use Rattle.integers.specs.Sum.{total};
ghost use Rattle.additions.specs.Additions.{nonzero};
ghost use Rattle.state.specs.State.{digits_of};
ghost use Rattle.spans.specs.Inner.{Start, End, AreWithin};
ghost use Rattle.counts.specs.Inner.{Counts, MayCount, MayMultiply, column_entries, counted};

use column::Span;
use job::ROWS;
use state::DIGITS;
use system::ENTRIES;

// A count after one number more, which is left out where it is 0: a digit, whose column is then skipped and
// not listed, or an entry.
pub fn counted(d: i64, count: usize) -> usize
    requires { count < 16 }
    ensures { result ≡ counted d count }
{
    if d == 0 { count } else { count + 1 }
}

// 1 for a digit other than 0, whose column the next step adds, and 0 for one whose column it skips.
pub fn added(d: i64) -> u8
    ensures { result ≡ nonzero d }
{
    if d == 0 { 0 } else { 1 }
}

// The same of column j's digit of step k in the array of all digits; 0 before the first step.
fn added_after(digits: &[i8; DIGITS], k: usize, j: usize) -> u8
    requires { (k ≤ 60) × (j < 16) }
    ensures { result ≡ nonzero (digits_of digits.now k j) }
{
    if k == 0 {
        return 0;
    }
    added(i64::from(digits[16 * (k - 1) + j]))
}

// For each column whether the step after the k-th adds it.
pub fn first_times(digits: &[i8; DIGITS], k: usize) -> [u8; ROWS]
    requires { k ≤ 60 }
    ensures { Counts 16 (λ j. nonzero (digits_of digits.now k j)) result }
{
    let mut t = [0u8; ROWS];
    for j in 0..ROWS {
        t[j] = added_after(digits, k, j);
    }
    t
}

// Counts in `times` each column whose digit in d is other than 0, which the next step adds.
pub fn count_digits(d: &[i8; ROWS], n: usize, times: &mut [u8; ROWS])
    requires { (n ≤ 16) × MayCount n times.old }
    ensures { Counts n (λ j. get_or times.old j 0 + nonzero (at d.now j)) times.new }
{
    for j in 0..n {
        times[j] = times[j] + added(i64::from(d[j]));
    }
}

// How many entries other than 0 column j has. It has none before its span and none after it. A curve's
// columns have one entry; so the first row stands before the loop, which then has nothing left to do.
fn column_entries(g: &[i64; ENTRIES], j: usize, span: Span, n: usize) -> usize
    requires { (j < 16) × (n ≤ 16) × Start n g.now j span.start × End n g.now j span.end }
    ensures { result ≡ column_entries n g.now j }
{
    if span.end <= span.start {
        return 0;
    }
    let mut c = counted(g[16 * span.start + j], 0);
    for i in span.start + 1..span.end {
        c = counted(g[16 * i + j], c);
    }
    c
}

// The entries other than 0 of each column, in e.
pub fn entries(g: &[i64; ENTRIES], spans: &[Span; ROWS], n: usize, e: &mut [usize; ROWS])
    requires { (n ≤ 16) × AreWithin n g.now spans.now }
    ensures { Counts n (column_entries n g.now) e.new }
{
    for j in 0..n {
        e[j] = column_entries(g, j, spans[j], n);
    }
}

// The additions, where t[j] digits of column j are other than 0, that of step k included, with which no step
// made has added, and column j has e[j] entries.
pub fn additions(
    e: &[usize; ROWS],
    t: &[u8; ROWS],
    digits: &[i8; DIGITS],
    k: usize,
    n: usize,
) -> usize
    requires { (k ≤ 60) × (n ≤ 16) × MayMultiply n e.now t.now (digits_of digits.now k) }
    ensures { result ≡ total n (λ j. (get_or t.now j 0 - nonzero (digits_of digits.now k j)) * get_or e.now j 0) }
{
    let mut a: usize = 0;
    for j in 0..n {
        a = a + ((t[j] - added_after(digits, k, j)) as usize) * e[j];
    }
    a
}
