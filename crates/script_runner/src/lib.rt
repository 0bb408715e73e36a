//! The program's top call (`run`): makes the files of a database, plays a script on an engine over them, prints the database or
//! what is counted in it, or prints a generated script. Whoever has the files, the clock and the output hands them in.
#![tactic(auto)]

mod program;
mod seats;
mod ways;

pub use program::run;
pub use run_outcome::{Fault, Outcome, cause_line};
