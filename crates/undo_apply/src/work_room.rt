//! What is kept while a change is taken back: how far it has come, and buffers that are taken once. One room serves one
//! change after another.

ghost use Rattle.std.specs.Prelude.{◌≡◌, IfOk};
ghost use Rattle.undo_apply.specs.Rooms.{IsWhole};

use crate::entry_room::EntryRoom;
use inno_types::Bytes;
use std::alloc::Global;
use store_api::{MOST_BYTES_OF_KEY, MOST_BYTES_OF_VALUE, Mark, NoMemory};

/// What is done next. Keys are counted from 0.
#[derive(Clone, Copy)]
pub enum Stage {
    /// See whether the change stands.
    Find,
    /// See what the entries of this key ask for.
    Key { which: u8 },
    /// See whether the version behind this roll pointer has the newest row's value.
    Walk { which: u8, pointer: u64 },
    /// It has: mark the newest row's entry.
    Mark { which: u8 },
    /// No older version has: remove the entry.
    Remove { which: u8 },
    /// Unmark the entry of the row before.
    Unmark { which: u8 },
    /// The keys are done: put the version before in place of the record, or remove it.
    Record,
}

/// Buffers for one record and one older version, and how far the change that is being taken back has come.
#[derive(Drop)]
pub struct WorkRoom {
    pub stage: Stage,
    /// The value of the record that stands.
    pub newest: Vec<u8>,
    pub older: Vec<u8>,
    /// A key behind that of an entry or a record.
    pub next: Vec<u8>,
    pub entries: EntryRoom,
    /// The values of entries: marked, and not marked.
    pub marked: Bytes,
    pub unmarked: Bytes,
}

impl WorkRoom {
    /// Takes the memory for the longest record and the longest entry.
    pub fn new(alloc: Global) -> Result<WorkRoom, NoMemory>
        ensures whole { IfOk result IsWhole }
        ensures stage { IfOk result (λ room. room.stage ≡ Stage.Find) }
    {
        Ok(WorkRoom {
            stage: Stage::Find,
            newest: Vec::with_capacity(alloc, MOST_BYTES_OF_VALUE)?,
            older: Vec::with_capacity(alloc, MOST_BYTES_OF_VALUE)?,
            next: Vec::with_capacity(alloc, MOST_BYTES_OF_KEY)?,
            entries: EntryRoom::new(alloc)?,
            marked: Bytes::from_vec(vec![in alloc; Mark::Marked as u8]?),
            unmarked: Bytes::from_vec(vec![in alloc; Mark::Unmarked as u8]?),
        })
    }
}
