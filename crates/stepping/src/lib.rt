// Steps of a job. A step adds, as the array does, one column after the other over all rows, each with its
// digit of the step before, skips those whose digit is 0, and then chooses a digit in each row. A column is
// multiplied by its digit (crate spans), or in radix 2 added or taken off (signs), and `make_steps` takes
// what is likely to be faster. The digits are chosen in the crate choice, and the additions counted in
// counts. Its contract is an equality with `steps` of specs/Steps.antt, which also says what steps have to do
// with the recurrence.
#![tactic(auto)]

ghost use Rattle.std.specs.Prelude.{◌≡◌, ◌≢◌, true, ◌+◌, ◌-◌, ◌*◌, ◌≤◌, pos, get_or, replicate, List, ℤ};
ghost use Rattle.integers.specs.Flat.{at, flat_vector};
ghost use Rattle.additions.specs.Additions.{nonzero};
ghost use Rattle.spans.specs.Inner.{row_dot, MaySumRows, AreSpans};
ghost use Rattle.stepping.specs.Inner.{FirstZero, state_at, MayStepOnce, Stepped, MayStep};
ghost use Rattle.signs.specs.Inner.{Columns};
ghost use Rattle.counts.specs.Inner.{Counts, MayCount, column_entries};
ghost use Rattle.state.specs.State.{digits_of};
ghost use Rattle.state.specs.Inner.{state_of};
ghost use Rattle.integers.specs.Flat.{filled};
ghost use Rattle.stepping.specs.Steps.{steps, steps_additions};

use choice::Units;
use column::Span;
use job::{Header, ROWS};
use selection::Choices;
use signs::BOTH;
use state::DIGITS;
use system::ENTRIES;

mod plan; // plan.rt: what the steps of a job are made with

use plan::Plan;

// The digits of step k in the rows below n: 0 before the first step and past row n. In the array of all
// digits those of a step start 16 after those of the step before.
pub fn last_digits(digits: &[i8; DIGITS], k: usize, n: usize) -> [i8; ROWS]
    requires { (k ≤ 60) × (n ≤ 16) }
    ensures { result ≡ flat_vector n (digits_of digits.now k) }
{
    let mut d = [0i8; ROWS];
    if k == 0 {
        return d;
    }
    let start = 16 * (k - 1);
    for i in 0..n {
        d[i] = digits[start + i];
    }
    d
}

// The sum of each row below n with the digits d of step k, with which steps begin, one column after the
// other, and zeros past row n. Before the first step every digit is 0, and so is every sum.
fn first_sums(g: &[i64; ENTRIES], d: &[i8; ROWS], n: usize, k: usize) -> [i64; ROWS]
    requires { (n ≤ 16) × MaySumRows n g.now d.now × FirstZero k d.now }
    ensures { result ≡ filled (row_dot n g.now d.now) (replicate 16 (pos 0)) n }
{
    let mut s = [0i64; ROWS];
    if k == 0 {
        return s;
    }
    for j in 0..n {
        column::add_column(g, j, 0, n, i64::from(d[j]), &mut s);
    }
    s
}

// The rows' sums with the digits of the step before, and for each column in how many steps it is added.
#[derive(Drop)]
struct Work {
    sums: [i64; ROWS],
    times: [u8; ROWS],
}

// How a step chooses its digits and adds the columns with them for the next step.
trait Form {
    ghost use Rattle.stepping.specs.declared.plan.Plan.{Plan};

    // this is the form of the columns of g
    ghost is_of: { Plan → (g : List ℤ) → Self → Type 0 };

    // The step after the k-th. The vector of the step before and the vector being chosen go in by value, and
    // the one chosen comes back; the caller swaps the two. The one being chosen is cleared first: what it held
    // two steps before is no part of this one, and so no step waits for a copy of digits that were just
    // written one by one. The sums in `work` come in with the step before, whose digits the code need not
    // look at again, and go out with those of the next step, from the vector just chosen.
    fn step(
        &self,
        plan: Plan,
        choices: &Choices,
        g: &[i64; ENTRIES],
        k: usize,
        before: [i8; ROWS],
        chosen: [i8; ROWS],
        work: &mut Work,
        z: &mut [i64; ROWS],
        digits: &mut [i8; DIGITS],
    ) -> [i8; ROWS]
        requires { MayStepOnce (state_at plan k g.now z.old digits.old) before work.old.sums × is_of plan g.now self.now × MayCount plan.header.n work.old.times }
        ensures step { Stepped (state_at plan k g.now z.old digits.old) z.new digits.new result work.new.sums }
        ensures counted { Counts plan.header.n (λ j. get_or work.old.times j 0 + nonzero (at result j)) work.new.times };

    // How many entries other than 0 each column has.
    fn entries(&self, plan: Plan, g: &[i64; ENTRIES]) -> [usize; ROWS]
        requires { (plan.header.n ≤ 16) × is_of plan g.now self.now }
        ensures { Counts plan.header.n (column_entries plan.header.n g.now) result };
}

// Each column is multiplied by its digit.
#[derive(Drop)]
struct BySpans<'a> {
    spans: &'a [Span; ROWS],
}

impl<'a> Form for BySpans<'a> {
    ghost is_of = { λ plan g form. AreSpans plan.header.n g form.spans.now };

    fn step(
        &self,
        plan: Plan,
        choices: &Choices,
        g: &[i64; ENTRIES],
        k: usize,
        before: [i8; ROWS],
        mut chosen: [i8; ROWS],
        work: &mut Work,
        z: &mut [i64; ROWS],
        digits: &mut [i8; DIGITS],
    ) -> [i8; ROWS] {
        let n = plan.header.n;
        chosen = [0i8; ROWS];
        choice::choose(
            choices,
            plan.units,
            n,
            k,
            &work.sums,
            z,
            &mut chosen,
            digits,
        );
        spans::column_sums(g, self.spans, &chosen, n, &mut work.sums);
        counts::count_digits(&chosen, n, &mut work.times);
        chosen
    }

    fn entries(&self, plan: Plan, g: &[i64; ENTRIES]) -> [usize; ROWS] {
        let mut e = [0usize; ROWS];
        counts::entries(g, self.spans, plan.header.n, &mut e);
        e
    }
}

// In radix 2 each column is added or taken off, and those whose digit is 0 are left out of a list. The radix
// and the largest digit are written out, so that the compiler knows them.
#[derive(Drop)]
struct BySigns<'a> {
    columns: &'a [i64; BOTH],
    entries: &'a [usize; ROWS],
}

impl<'a> Form for BySigns<'a> {
    ghost is_of = { λ plan g form. Columns plan.header.n g form.columns.now × (plan.header.p ≡ 1) × Counts plan.header.n (column_entries plan.header.n g) form.entries.now };

    fn step(
        &self,
        plan: Plan,
        choices: &Choices,
        g: &[i64; ENTRIES],
        k: usize,
        before: [i8; ROWS],
        mut chosen: [i8; ROWS],
        work: &mut Work,
        z: &mut [i64; ROWS],
        digits: &mut [i8; DIGITS],
    ) -> [i8; ROWS] {
        let n = plan.header.n;
        let units = Units {
            r: 2,
            q: plan.units.q,
            p: 1,
            f: plan.units.f,
        };
        chosen = [0i8; ROWS];
        let mut list = [0usize; ROWS];
        let count = choice::choose_and_list(
            choices,
            units,
            n,
            k,
            &work.sums,
            z,
            &mut chosen,
            digits,
            &mut work.times,
            &mut list,
        );
        work.sums = signs::listed_sums(self.columns, &list[..count]);
        chosen
    }

    fn entries(&self, _plan: Plan, _g: &[i64; ENTRIES]) -> [usize; ROWS] {
        *self.entries
    }
}

// Makes the steps. After each the two vectors change places: the one just chosen is the step before of the
// next.
fn run<F: Form>(
    form: &F,
    plan: Plan,
    choices: &Choices,
    g: &[i64; ENTRIES],
    k: usize,
    made: usize,
    z: &mut [i64; ROWS],
    digits: &mut [i8; DIGITS],
) -> usize
    requires { MayStep (state_at plan k g.now z.old digits.old) made × F.is_of plan g.now form.now }
    ensures residuals { z.new ≡ (steps (state_at plan k g.now z.old digits.old) made).z }
    ensures digits { digits.new ≡ (steps (state_at plan k g.now z.old digits.old) made).digits }
    ensures additions { result ≡ steps_additions (state_at plan k g.now z.old digits.old) made }
{
    let n = plan.header.n;
    let mut before = last_digits(digits, k, n);
    let mut chosen = [0i8; ROWS];
    let sums = first_sums(g, &before, n, k);
    let times = counts::first_times(digits, k);
    let mut work = Work { sums, times };
    for j in 0..made {
        let newest = form.step(
            plan,
            choices,
            g,
            k + j,
            before,
            chosen,
            &mut work,
            z,
            digits,
        );
        chosen = before;
        before = newest;
    }
    let entries = form.entries(plan, g);
    counts::additions(&entries, &work.times, digits, k + made, n)
}

// Makes the steps with each column multiplied by its digit. The arrays of a form are made in a function of its
// own, where the compiler puts them in place: where both stand in one, it copies them.
fn run_by_spans(
    plan: Plan,
    choices: &Choices,
    g: &[i64; ENTRIES],
    k: usize,
    made: usize,
    z: &mut [i64; ROWS],
    digits: &mut [i8; DIGITS],
) -> usize
    requires { MayStep (state_at plan k g.now z.old digits.old) made }
    ensures residuals { z.new ≡ (steps (state_at plan k g.now z.old digits.old) made).z }
    ensures digits { digits.new ≡ (steps (state_at plan k g.now z.old digits.old) made).digits }
    ensures additions { result ≡ steps_additions (state_at plan k g.now z.old digits.old) made }
{
    let spans = spans::column_spans(g, plan.header.n);
    run(
        &BySpans { spans: &spans },
        plan,
        choices,
        g,
        k,
        made,
        z,
        digits,
    )
}

// Makes them with each column added or taken off. The radix of digits up to 1 is 2.
fn run_by_signs(
    plan: Plan,
    choices: &Choices,
    g: &[i64; ENTRIES],
    k: usize,
    made: usize,
    z: &mut [i64; ROWS],
    digits: &mut [i8; DIGITS],
) -> usize
    requires { MayStep (state_at plan k g.now z.old digits.old) made × (plan.header.p ≡ 1) }
    ensures residuals { z.new ≡ (steps (state_at plan k g.now z.old digits.old) made).z }
    ensures digits { digits.new ≡ (steps (state_at plan k g.now z.old digits.old) made).digits }
    ensures additions { result ≡ steps_additions (state_at plan k g.now z.old digits.old) made }
{
    let mut entries = [0usize; ROWS];
    let columns = signs::columns(g, plan.header.n, &mut entries);
    let form = BySigns {
        columns: &columns,
        entries: &entries,
    };
    run(&form, plan, choices, g, k, made, z, digits)
}

// Whether steps with columns added or taken off are likely to be faster, the time to place the columns
// included: in radix 2, with enough rows and steps, where the first two rows have an entry in the last
// column. The columns of a curve have few entries.
fn signs_pay(g: &[i64; ENTRIES], n: usize, p: usize, made: usize) -> bool
    requires { (n ≤ 16) × (made ≤ 60) }
    ensures radix_2 { result ≡ true → p ≡ 1 }
    ensures pays { p ≡ 1 → 4 ≤ n → 64 ≤ made * n →
        get_or g.now (n - 1) (pos 0) ≢ pos 0 → get_or g.now (16 + (n - 1)) (pos 0) ≢ pos 0 → result ≡ true }
{
    if p != 1 {
        return false;
    }
    if n < 4 {
        return false;
    }
    if made * n < 64 {
        return false;
    }
    if g[n - 1] == 0 {
        return false;
    }
    g[16 + (n - 1)] != 0
}

// Makes the steps. The selection table is lent to all of them. For callers that know their state to pass 24.
pub fn make_steps(
    h: Header,
    scale: usize,
    k: usize,
    made: usize,
    g: &[i64; ENTRIES],
    z: &mut [i64; ROWS],
    digits: &mut [i8; DIGITS],
) -> usize
    requires { MayStep (state_of true h scale k g.now z.old digits.old) made }
    ensures residuals { z.new ≡ (steps (state_of true h scale k g.now z.old digits.old) made).z }
    ensures digits { digits.new ≡ (steps (state_of true h scale k g.now z.old digits.old) made).digits }
    ensures additions { result ≡ steps_additions (state_of true h scale k g.now z.old digits.old) made }
{
    let plan = Plan::new(h, scale);
    let choices = Choices::new();
    if signs_pay(g, h.n, h.p, made) {
        run_by_signs(plan, &choices, g, k, made, z, digits)
    } else {
        run_by_spans(plan, &choices, g, k, made, z, digits)
    }
}
