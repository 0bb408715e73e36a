//! The latches that actors hold on indexes and pages for the time of a few steps: a table of them, and a trait for what
//! works over latches. Sessions and workers are actors, by number. Nobody waits here: who is refused asks again later.
#![tactic(auto)]

mod latches;
mod laws;
mod lists;
mod table;

pub use latches::{Latch, Latched, Latches, MOST_ACTORS, MOST_TARGETS, Target, Targets};
pub use laws::a_first_latch_stands_last;
pub use table::LatchTable;
