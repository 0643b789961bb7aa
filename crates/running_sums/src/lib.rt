// Running sums (document 02, request 5): the call that shows in which order the array adds. It takes a state
// by value and gives none back, and writes to a lent list: for each column that is not skipped, from the
// first, its number, from 1, and then, row by row, the sum over the columns so far, this one included, of G's
// entry times the digit of the last step made. The sums are in units of 1 / 2^f, whatever the scale is. A
// column whose last digit is 0 is skipped, so after 0 steps nothing is written.
//
// It is refused as readings are, by 20, 24 and 23, and asks nothing of its caller. With a refusal all words
// stay as they were, and so do the words past those written. The columns are added by `column::add_column`,
// by which steps add them too.
#![tactic(auto)]

ghost use Rattle.std.specs.Prelude.{◌≡◌, ◌∷◌, ◌++◌, ◌+◌, ◌≤◌, pos, length, drop};
ghost use Rattle.std.proofs.lemmas.List.Edits.{sets};
ghost use Rattle.integers.specs.Flat.{at, list_from};
ghost use Rattle.running_sums.specs.RunningSums.{columns_below, words_below, word_count_below, sums_result, sums_written, sums_list};
ghost use Rattle.running_sums.specs.Inner.{MayPut, MayPutColumn};

use job::{ROWS, Refused};
use state::State;
use system::ENTRIES;

// How many of the columns below n are not skipped with the digits d.
fn count_columns(d: &[i8; ROWS], n: usize) -> usize
    requires { n ≤ 16 }
    ensures { result ≡ columns_below (at d.now) n }
{
    let mut count: usize = 0;
    for j in 0..n {
        if d[j] != 0 {
            count += 1;
        }
    }
    count
}

// Puts a column's number and the sums of the rows below n into the list, from the word `to` on; the other
// words stay.
fn put_column(number: usize, s: &[i64; ROWS], n: usize, out: &mut [i64], to: usize)
    requires { MayPutColumn number n to (length out.old) }
    ensures { out.new ≡ sets out.old to (pos number ∷ list_from 0 n (at s.now)) }
{
    out[to] = integers::to_signed(number as u64);
    for i in 0..n {
        out[to + 1 + i] = s[i];
    }
}

// Puts the words of the columns below n that are not skipped with the digits d into the list; the words past
// them stay.
fn put_sums(g: &[i64; ENTRIES], d: &[i8; ROWS], n: usize, out: &mut [i64])
    requires { MayPut n g.now d.now (length out.old) }
    ensures { out.new ≡ words_below n g.now (at d.now) n ++ drop (word_count_below n (at d.now) n) out.old }
{
    let mut s = [0i64; ROWS];
    let mut to: usize = 0;
    for j in 0..n {
        let digit = d[j];
        if digit != 0 {
            column::add_column(g, j, 0, n, i64::from(digit), &mut s);
            put_column(j + 1, &s, n, out, to);
            to += n + 1;
        }
    }
}

// The running sums at the steps made, for each column that is not skipped. Gives how many words it has written.
pub fn running_sums(s: State, out: &mut [i64]) -> Result<usize, Refused>
    ensures answer { sums_result result ≡ sums_written s (length out.old) }
    ensures list { out.new ≡ sums_list s out.old }
{
    s.check()?;
    let n = s.header.n;
    let d = stepping::last_digits(&s.digits, s.k, n);
    let count = (n + 1) * count_columns(&d, n);
    if out.len() < count {
        return Err(Refused::TooLittleRoom);
    }
    put_sums(&s.g, &d, n, out);
    Ok(count)
}
