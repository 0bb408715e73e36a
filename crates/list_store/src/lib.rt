//! A store of indexes in memory: ordered maps for indexes, versions in a vector, and the tables.
//! Whoever wants a world in memory puts `parts_world` over it (`list_world`).
#![tactic(auto)]

mod kept;
mod list_store;
mod logging;
mod slots;
mod store_calls;

pub use list_store::ListStore;
