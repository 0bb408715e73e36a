//! INSERT, UPDATE and DELETE as a machine: it takes the right to write, searches its table, asks the plain interpreter
//! what it does to the rows found, and makes these changes; an INSERT goes tuple by tuple. Each step is one of what the
//! lists keep for the session, or adds one entry; other sessions' come between. How it ends is told by `giving_up`.
#![tactic(auto)]

mod answering;
mod changing;
mod machine;
mod making;
mod opening;
mod parting;
mod searching;
mod settling;

pub use machine::{Part, WriteStatement};
pub use parting::an_insert_goes_tuple_by_tuple;
