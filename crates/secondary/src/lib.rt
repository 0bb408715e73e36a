//! Entries of secondary keys, made of the bytes of records alone. A layer that enters or marks entries of a record
//! that it has read needs no typed row for it.
#![tactic(auto)]

mod entry;
mod fields;
mod laws;

pub use entry::{entry_from, has_secondary};
pub use laws::an_entry_has_at_most_67_bytes;
