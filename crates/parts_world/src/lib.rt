//! A world over a store of indexes: all transactions, sessions, locks and the history, whatever the tables are kept in.
//! Statements drive it through the trait `World`; the engine alone makes it, joins sessions and adds tables.
#![tactic(auto)]

mod engine_calls;
mod lock_calls;
mod logging;
mod opening;
mod parts_world;
mod world_calls;

pub use parts_world::PartsWorld;
