//! A mini-transaction over a pool that is smaller than its file: pages come in from the disk as they are asked for, and stay while
//! the mini-transaction deals with them. Trees, the space map and the catalog work on it through the trait `Mtr`.
#![tactic(auto)]

mod bringing;
mod ending;
mod paged;
mod room;
mod work;

pub use paged::PagedTxn;
pub use room::Room;
