//! A store of indexes: what a world keeps its tables in, with the older versions of their rows and the room for undo
//! records. `list_store` meets the trait in memory; the world above is generic over it.
#![tactic(auto)]

mod copying;
mod room;
mod store;

pub use copying::copy_into;
pub use room::Room;
pub use store::{IndexStore, MemoryStore};
