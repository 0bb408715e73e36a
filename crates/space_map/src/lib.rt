//! The map of used pages: one is taken, given back, and the free ones are counted.
//! No other crate writes to pages 2 to 4.
#![tactic(auto)]

mod bits;
mod marking;
mod parts;
mod space;

pub use space::{free_count, give, take};
