// The choice of one digit, as the array makes it: an estimate of w, and its entry in the selection table,
// held back to p or -p. w is in units of 1 / 2^f, so that 2^f stands for 1.
#![tactic(auto)]

ghost use Rattle.std.specs.Prelude.{◌≡◌, ◌+◌, ◌*◌, ◌^◌, ◌≤◌, nat_abs};
ghost use Rattle.integers.specs.Sum.{Within};
ghost use Rattle.job.specs.Rules.{bound_over, bound_under};
ghost use Rattle.recurrence.specs.Recurrence.{estimate, select};
ghost use Rattle.selection.specs.Selection.{InTable, selection_table, held, table_digit};
ghost use Rattle.selection.specs.Inner.{lesser, greater};

mod entries; // entries.rt: the table

use entries::TABLE;
pub use entries::{ESTIMATES, fill_table, table};

// The estimate of w in 32nds of a unit: w cut down to five fraction bits. A shift rounds downward, for a
// negative number too. With four fraction bits, the fewest that there are, nothing is cut.
fn estimate(w: i64, f: usize) -> i64
    requires { (4 ≤ f) × (f ≤ 44) × Within w (2 ^ 49) }
    ensures { result ≡ estimate (2 ^ f) w }
{
    if f == 4 { 2 * w } else { w >> (f - 5) }
}

// The lesser of two numbers.
fn lesser(a: i64, b: i64) -> i64
    ensures { result ≡ lesser a b }
{
    if b < a { b } else { a }
}

// The greater of two numbers.
fn greater(a: i64, b: i64) -> i64
    ensures { result ≡ greater a b }
{
    if a < b { b } else { a }
}

// An entry held back to p, or to -p. The tests have the entry on the side on which a digit of p or of -p, as
// half of those of radix 2 are, goes the way of all others: only an entry that is held goes another.
fn held_back(entry: i64, p: usize) -> i64
    requires { (p ≤ 15) × Within entry 16 }
    ensures { result ≡ held p entry }
{
    let most = p as i64;
    let raised = greater(0 - most, entry);
    lesser(raised, most)
}

// An array that is the table, as steps lend it to each choice: used at each choice, the constant would be made
// each time. It is lent and not held, so that no call makes or copies its entries.
#[derive(Drop)]
pub struct Choices<'a> {
    entries: &'a [i8; ESTIMATES],
    ghost is_table: { entries.now ≡ selection_table },
}

impl<'a> Choices<'a> {
    // The library's own table.
    pub fn new() -> Self {
        Choices { entries: &TABLE }
    }

    // A caller's array that is the table.
    pub fn of(entries: &'a [i8; ESTIMATES]) -> Self
        requires { entries.now ≡ selection_table }
    {
        Choices { entries }
    }

    // The digit of an estimate e: the table's entry at e + 512, held back.
    fn digit_at(&self, e: i64, p: usize) -> i64
        requires { (p ≤ 15) × InTable e }
        ensures { result ≡ table_digit p e }
    {
        let place = integers::to_unsigned(e + 512) as usize;
        held_back(i64::from(self.entries[place]), p)
    }

    // The digit that is taken off w.
    pub fn select(&self, w: i64, f: usize, p: usize) -> i64
        requires { (4 ≤ f) × (f ≤ 44) × (p ≤ 15) × (bound_under * nat_abs w ≤ (bound_under * p + bound_over) * 2 ^ f) }
        ensures { result ≡ select p (2 ^ f) w }
    {
        let e = estimate(w, f);
        self.digit_at(e, p)
    }
}
