//! A statement's search for the rows that it locks, at REPEATABLE READ and SERIALIZABLE: one index is walked within a
//! range, and each record, entry and gap that it comes to is locked in the same step.
//! No statement drives it yet; it changes locks, and its actor's place in the index that it walks.
#![tactic(auto)]

mod asker;
mod bounds;
mod one_key;
mod phase;
mod record;
mod search;
mod visit;
mod walk;

pub use asker::Asker;
pub use phase::LockingPhase;
pub use search::{Came, Hindrance, LockingSearch};
