// The calls themselves, one by one: load, then advances and readings in any order. Demand 3 is about lists of
// calls; `perform` runs one, and ensures the demand of it and of every word that it hands out
// (specs/Perform.antt).
ghost use Rattle.std.specs.Prelude.{◌≡◌, ◌++◌, drop};
ghost use Rattle.job.specs.Refusal.{first_refusal};
ghost use Rattle.state.specs.State.{state_checks};
ghost use Rattle.accuracy.specs.Accuracy.{state_after, run, call_additions, calls_additions};
ghost use Rattle.calls.specs.Promise.{evaluated};
ghost use Rattle.calls.specs.Perform.{counted, call_of, room_of, calls_of, part_after, list_after, Performed};

use crate::{Evaluation, not_loaded};
use evaluator::Steps;
use job::Refused;
use state::State;

// What a call leaves: the state, the additions that it counted, and how many words of the list it got.
#[derive(Clone, Copy)]
struct Made {
    state: State,
    additions: usize,
    room: usize,
}

// What a list of calls leaves: the state, and the additions that they counted in all.
#[derive(Clone, Copy)]
struct AllMade {
    state: State,
    additions: usize,
}

// The additions that an advance counted, 0 where it was refused.
fn additions(steps: Result<Steps, Refused>) -> usize
    ensures { result ≡ counted steps }
{
    match steps {
        Ok(d) => d.additions,
        Err(_) => 0,
    }
}

// Makes one call: advance by `value` where `kind` is 0, and else readings, which get the first `value` words
// of the list, or all of it where it has fewer.
fn make_call(s: State, kind: u64, value: u64, list: &mut [i64]) -> Made
    ensures made { result ≡ record { state = state_after s (call_of kind value list.old); additions = call_additions s (call_of kind value list.old); room = room_of (call_of kind value list.old) } }
    ensures list { list.new ≡ part_after s (call_of kind value list.old) ++ drop (room_of (call_of kind value list.old)) list.old }
{
    if kind == 0 {
        let (t, steps) = evaluator::advance(s, value);
        return Made {
            state: t,
            additions: additions(steps),
            room: 0,
        };
    }
    let room = value.min(list.len() as u64) as usize;
    let _ = evaluator::readings(s, &mut list[..room]);
    Made {
        state: s,
        additions: 0,
        room,
    }
}

// Makes the calls that the words name, one after the other, and gives the state that the last leaves and the
// additions counted. Each readings call gets the next part of the list. For a state that passes 20 and 24.
fn make_calls(s: State, words: &[u64], list: &mut [i64]) -> AllMade
    requires { first_refusal (state_checks s) ≡ 0 }
    ensures made { result ≡ record { state = run s (calls_of words.now list.old); additions = calls_additions s (calls_of words.now list.old) } }
    ensures list { list.new ≡ list_after s (calls_of words.now list.old) list.old }
{
    let mut t = s;
    let mut additions: usize = 0;
    let mut place: usize = 0;
    let mut rest = words;
    while let [kind, value, later @ ..] = rest {
        let m = make_call(t, *kind, *value, &mut list[place..]);
        let next = m.state;
        t = next;
        additions = additions + m.additions;
        place = place + m.room;
        rest = later;
    }
    AllMade {
        state: t,
        additions,
    }
}

// Loads a frame and makes the calls that the words name. Two words are a call: 0 and a budget is advance, any
// other word and a room is readings, which get the next `room` words of `out`, or all that are left where
// fewer are; an odd word at the end is no call. Refused as load is, by 1 to 8 and 15: no call is then made,
// and no word of `out` changed. A call of the list that is refused changes nothing, and those after it are
// made.
pub fn perform(frame: &[u8], words: &[u64], out: &mut [i64]) -> Evaluation
    ensures { Performed frame.now words.now out.old (evaluated result) out.new }
{
    let s = match evaluator::load(frame) {
        Ok(s) => s,
        Err(e) => return not_loaded(e),
    };
    let m = make_calls(s, words, out);
    Evaluation {
        refusal: None,
        scale: m.state.scale,
        made: m.state.k,
        additions: m.additions,
    }
}
