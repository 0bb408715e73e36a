//! Room for one undo record that is read without taking memory.
//! A session's desk keeps one, and a world reads a record into it (`last`).

ghost use Rattle.std.specs.Prelude.{IfOk};
ghost use Rattle.world.specs.Undoing.{HoldsRecord};

use std::alloc::Global;
use store_api::{MOST_BYTES_OF_KEY, MOST_BYTES_OF_VALUE, NoMemory};

/// An undo record as it is read: of which kind (1 tells of a new row, 2 keeps the version that was replaced), of which
/// table, and the clustered key and value.
#[derive(Drop)]
pub struct UndoRoom {
    pub kind: u8,
    pub table: u8,
    pub key: Vec<u8>,
    pub value: Vec<u8>,
}

impl UndoRoom {
    /// Takes the memory for the longest record.
    pub fn new(alloc: Global) -> Result<UndoRoom, NoMemory>
        ensures { IfOk result HoldsRecord }
    {
        Ok(UndoRoom {
            kind: 0,
            table: 0,
            key: Vec::with_capacity(alloc, MOST_BYTES_OF_KEY)?,
            value: Vec::with_capacity(alloc, MOST_BYTES_OF_VALUE)?,
        })
    }
}
