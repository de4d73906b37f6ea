//! Lines of test vectors and their answers: `table` has the commands, the fields of each, and what the first fault of a
//! line is, and `answer` answers a line without one by the public calls of `aegis`.
#![tactic(auto)]

mod answer;
mod fault;
mod fields;
mod records;
mod table;

pub use answer::answer_line;
