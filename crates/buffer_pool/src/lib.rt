//! The pages of a file in memory, as many as there are frames: which pages are in, changed or fixed, and which one goes when
//! another needs its frame. Nothing here knows of the log: who changes pages logs them first.
#![tactic(auto)]

mod fixing;
mod frame;
mod order;
mod pool;
mod slots;

pub use fixing::{FixBad, bytes_of_place};
pub use frame::Content;
pub use pool::Pool;
