// The rows' sums with the digits of the step before in radix 2, where a column is added or taken off with no
// multiplication. The columns stand one after the other, and so do their negatives; those whose digit is not
// 0 are listed, and added one after the other over all 16 rows, several rows at once.
#![tactic(auto)]

ghost use Rattle.std.specs.Prelude.{◌≡◌, ◌+◌, ◌*◌, ◌<◌, ◌≤◌, nat_abs, length};
ghost use Rattle.integers.specs.Flat.{filled};
ghost use Rattle.counts.specs.Inner.{Counts, column_entries};
ghost use Rattle.signs.specs.Inner.{Tabulated, Columns, MayTabulate, column_place, MayAdd, added, MayAddListed, ListedSums};

use job::ROWS;
use system::ENTRIES;

// Room for each column twice: its negative in the first half, itself in the second.
pub const BOTH: usize = 2 * ENTRIES;

// Column j, in the rows below n: its negative in the first half, itself in the second. The other rows keep
// their zeros. How many of its entries are other than 0.
fn place_column(g: &[i64; ENTRIES], n: usize, j: usize, t: &mut [i64; BOTH]) -> usize
    requires { (n ≤ 16) × (j < n) × MayTabulate n g.now × Tabulated n g.now t.old (16 * j) }
    ensures placed { Tabulated n g.now t.new (16 * (j + 1)) }
    ensures entries { result ≡ column_entries n g.now j }
{
    let mut c: usize = 0;
    for i in 0..n {
        let v = g[16 * i + j];
        t[16 * j + i] = 0 - v;
        t[256 + (16 * j + i)] = v;
        c = counts::counted(v, c);
    }
    c
}

// The columns of the matrix and their negatives, each with its 16 rows one after the other, and in `entries`
// how many of each column's entries are other than 0.
pub fn columns(g: &[i64; ENTRIES], n: usize, entries: &mut [usize; ROWS]) -> [i64; BOTH]
    requires { (n ≤ 16) × MayTabulate n g.now }
    ensures columns { Columns n g.now result }
    ensures entries { Counts n (column_entries n g.now) entries.new }
{
    let mut t = [0i64; BOTH];
    for j in 0..n {
        entries[j] = place_column(g, n, j, &mut t);
    }
    t
}

// Where column j starts for the digit 1, or its negative for the digit -1. For a digit of 0, which a list has
// not, it is a place between the two.
pub fn column_place(d: i64, j: usize) -> usize
    requires { (nat_abs d ≤ 1) × (j < 16) }
    ensures { result ≡ column_place d j }
{
    128 * (integers::to_unsigned(d + 1) as usize) + 16 * j
}

// Adds the 16 rows from a place on to the sums.
fn add_rows(t: &[i64; BOTH], place: usize, s: &mut [i64; ROWS])
    requires { MayAdd t.now place s.old }
    ensures { s.new ≡ filled (added t.now place s.old) s.old 16 }
{
    for i in 0..16 {
        s[i] = s[i] + t[place + i];
    }
}

// The sums of the columns that stand at the places listed, one after the other.
pub fn listed_sums(t: &[i64; BOTH], list: &[usize]) -> [i64; ROWS]
    requires { MayAddListed t.now list.now (length list.now) }
    ensures { ListedSums t.now list.now (length list.now) result }
{
    let mut s = [0i64; ROWS];
    for place in list {
        add_rows(t, *place, &mut s);
    }
    s
}
