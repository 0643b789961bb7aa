// The library's face: the calls that a user makes, and the types that they take and give, all named through
// this crate. A crate that holds a value of one of the types lists the crate that declares the type as well.
// Nothing is declared here: each call's contract stands where the call is declared, and the other public
// functions of those crates are the library's own. The programs make every call through this crate, so none
// is missing.
//
// A call asks nothing of its caller. It refuses by a case of `Refused`, whose number `number` gives and the row of a
// heavy row `row`; docs/FORMAT.md has the numbers of each call and the order of their conditions. With a refusal
// the state comes back as it went in and lent memory keeps its values.
//
// load         makes the state of a job from a frame
// advance      makes as many steps as a budget allows and as are left
// readings     puts the reading of each row into a lent list
// running_sums puts into a lent list in which order the next step adds, column by column
// idle         gives the idle state
// read_frame   gives the fields of a frame and puts its numbers into a lent list
// write_frame  puts the frame of a header and of numbers into a lent buffer
// read_trace   gives the record of a trace
// write_trace  puts the trace of a record into a lent buffer
// record_of    gives the record of a state
// evaluate     loads a frame, advances by each budget of a list and puts the readings into a lent list
// perform      loads a frame and makes a list of calls, advances and readings in any order
// print_frame  puts the text of a frame, accepted or refused, into a lent buffer
#![tactic(auto)]

pub use calls::{Evaluation, evaluate, perform};
pub use evaluator::{Steps, advance, load, readings};
pub use frame::{read_frame, write_frame};
pub use job::{Header, Refused};
pub use printout::print_frame;
pub use running_sums::running_sums;
pub use state::{State, idle};
pub use trace::{Record, read_trace, record_of, write_trace};
