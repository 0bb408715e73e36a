//! Deadlocks: whether transactions wait for one another in a cycle, and which of them is rolled back.
//! The world of the store asks; granted locks and requests are read here and never changed.
#![tactic(auto)]

mod cycle;
mod rollback;
mod search;

pub use cycle::{Cycle, copied_in};
pub use rollback::{Size, Sizes, victim};
pub use search::cycle_through;
