// Demand 3 as a promise of running code. `evaluate` gives what a load, an advance for each budget of a list,
// and readings give, and ensures the statement `Accurate` of the crate accuracy for just that list of calls,
// which it need not make one by one. `perform` makes a list of calls itself, advances and readings in any
// order, and ensures the statement of it.
#![tactic(auto)]

ghost use Rattle.std.specs.Prelude.{◌≡◌, ◌≤◌};
ghost use Rattle.evaluator.specs.Evaluator.{smaller};
ghost use Rattle.accuracy.specs.Accuracy.{budgets, advances};
ghost use Rattle.calls.specs.Promise.{evaluated, Promise};

mod one_by_one; // one_by_one.rt: a list of calls, made one by one

use job::Refused;
pub use one_by_one::perform;
use state::DIGITS;

// What is evaluated: why it is refused, where it is, the scale s, the steps made, k, and the additions that they
// cost. A reading stands for itself divided by r^k and multiplied by r^s. Of a frame that is not loaded the
// counts are 0.
#[derive(Clone, Copy, PartialEq, Eq, Debug)]
pub struct Evaluation {
    pub refusal: Option<Refused>,
    pub scale: usize,
    pub made: usize,
    pub additions: usize,
}

// How many steps an advance for each budget of the list makes of a fresh job: as many as the budgets allow
// in all, and at most up to the last step.
fn steps_allowed(list: &[u64], last: usize) -> usize
    requires { last ≤ 60 }
    ensures { result ≡ smaller last (budgets (advances list.now)) }
{
    let mut made: usize = 0;
    for budget in list {
        made += (*budget).min((last - made) as u64) as usize;
    }
    made
}

// The answer to a frame that is not loaded.
pub(crate) fn not_loaded(e: Refused) -> Evaluation
    ensures { result ≡ record { refusal = Some e; scale = 0; made = 0; additions = 0 } }
{
    Evaluation {
        refusal: Some(e),
        scale: 0,
        made: 0,
        additions: 0,
    }
}

// Loads a frame, makes the steps that an advance for each budget makes, and writes a reading for each row
// to `out`. Refused as load is, by 1 to 8 and 15, and then as readings are, by 23; a refusal changes no word
// of `out`. The steps of all advances are made at once, and a state that load made is not looked at again.
// With 23 the steps are made too, as the advances make them, and counted.
pub fn evaluate(frame: &[u8], budgets: &[u64], out: &mut [i64]) -> Evaluation
    ensures { Promise frame.now budgets.now out.old (evaluated result) out.new }
{
    let s = match evaluator::load(frame) {
        Ok(s) => s,
        Err(e) => return not_loaded(e),
    };
    let h = s.header;
    let scale = s.scale;
    let made = steps_allowed(budgets, job::last_step(h, scale));
    let mut z = s.z;
    let mut digits = [0i8; DIGITS]; // as those of a fresh job are
    let additions = stepping::make_steps(h, scale, 0, made, &s.g, &mut z, &mut digits);
    if out.len() < h.n {
        return Evaluation {
            refusal: Some(Refused::TooLittleRoom),
            scale,
            made,
            additions,
        };
    }
    evaluator::put_readings(h, made, &digits, out);
    Evaluation {
        refusal: None,
        scale,
        made,
        additions,
    }
}
