//! A savepoint, as definitions and engines speak of it.
//! Only `SessionSettings` makes one, and keeps it until it is dropped or its transaction ends.

use inno_types::Bytes;

/// A savepoint, and how many changes its transaction had made then.
#[derive(Drop)]
pub struct Save {
    pub name: Bytes,
    pub made: u64,
}
