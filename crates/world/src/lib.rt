//! A world: the indexes, older versions, undo logs, transactions, sessions and the history of one engine, whatever they
//! are kept in. Statements and rollback are generic over `World`; `EngineWorld` adds what the engine alone asks:
//! sessions, items, tables and the history itself, and `LockWorld` has the calls of locks.
#![tactic(auto)]

mod engine_world;
mod laws;
mod lock_world;
mod undo_room;
mod world;

pub use engine_world::EngineWorld;
pub use laws::{a_store_at_hand_ends_at_once, stores_go_on};
pub use lock_world::{LockAnswer, LockWorld};
pub use undo_room::UndoRoom;
pub use world::World;
