//! A SELECT as a machine: each step is one of its search or adds one entry, and steps of other sessions may come between.
//! It takes its view, searches its table by a plan, and answers in the step that ends its transaction or its item. How it ends is
//! told by `giving_up`.
#![tactic(auto)]

mod answering;
mod dirty;
mod laws;
mod machine;
mod opening;
mod planning;
mod searching;

pub use laws::{rows_of_moments_are_a_loose_reading, the_newest_is_what_the_writer_sees};
pub use machine::{ReadStatement, an_acknowledgement_moves_it_on, others_leave_it};
