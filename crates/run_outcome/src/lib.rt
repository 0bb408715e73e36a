//! What surrounds a run: its words, its script read whole, its history printed, or told as a line by a replay of its entries
//! (`report`), and the fault and cause that it ends with. No engine is met here.
#![tactic(auto)]

mod cause;
mod changes;
mod commit_count;
mod commits;
mod copies;
mod generated;
mod input;
mod line;
mod outcome;
mod output;
mod pending;
mod reports;
mod shown;
mod total;
mod words;

pub use cause::cause_line;
pub use commits::{committed_db, replayed_db};
pub use generated::{generate_input, print_generated};
pub use input::{ReadBad, read_all};
pub use line::report;
pub use outcome::{Fault, Outcome, fault_of, finish, has_stopped, read_input, without_engine};
pub use output::write_all;
pub use reports::Report;
pub use shown::{Shown, print_shown};
pub use words::{Asked, Command, Way, command_of};
