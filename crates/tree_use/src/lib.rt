//! An index in a B+-tree over pages that are all in memory: the calls that every index has. Each call goes from the root to a
//! leaf and ends. From an actor's `next_key` to its next change nobody else changes the keys.
#![tactic(auto)]

mod beginning;
mod changes;
mod pages;
mod reading;
mod tree_use;

pub use tree_use::TreeUse;
