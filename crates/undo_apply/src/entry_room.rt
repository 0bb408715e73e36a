//! Room for entries of secondary keys that are made without taking memory.
//! A session's `WorkRoom` holds it, and only the steps that take a change back use it.

ghost use Rattle.std.specs.Prelude.{◌≡◌, ◌≤◌, ◌↔◌, ℕ, List, length, IsTrue, Some, IfOk, slice_get};
ghost use Rattle.store_api.specs.declared.answers.Version.{Version};
ghost use Rattle.row_codec.specs.Rows.{IsRecordOf, IsVersion};
ghost use Rattle.secondary.specs.Entries.{HasSecondary, entry_of};
ghost use Rattle.undo_apply.specs.Lengths.{AreOfEachLength};

use inno_types::{Bytes, Schema};
use secondary::entry_from;
use std::alloc::Global;
use std::marker::Model;
use std::mem;
use store_api::{MOST_BYTES_OF_KEY, NoMemory};

/// Room for the entry of a record. The calls of indexes take lists of bytes, and what room a list has nobody knows: so
/// there is one of each length, which is written over in place. Contracts see the entry that was written last.
#[derive(Drop)]
pub struct EntryRoom {
    alloc: Global,
    entry: Vec<u8>,
    other: Vec<u8>,
    lists: Vec<Bytes>,
    last: usize,
}

impl Model for EntryRoom {
    ghost use Rattle.std.specs.Prelude.{List, ℕ};

    ghost Value = { List ℕ };

    ghost use Rattle.undo_apply.specs.EntryRoom.{last_written, HasRoom};

    ghost view = { last_written };

    ghost invariant = { HasRoom };
}

impl EntryRoom {
    /// Takes the memory for the longest entry.
    pub(crate) fn new(alloc: Global) -> Result<EntryRoom, NoMemory> {
        Ok(EntryRoom {
            alloc,
            entry: Vec::with_capacity(alloc, MOST_BYTES_OF_KEY)?,
            other: Vec::with_capacity(alloc, MOST_BYTES_OF_KEY)?,
            lists: lists_of_each_length(alloc, MOST_BYTES_OF_KEY + 1)?,
            last: 0,
        })
    }

    /// The entry that was written last.
    pub(crate) fn entry(&self) -> &Bytes
        ensures { result.now ≡ self.now }
    {
        &self.lists[self.last]
    }

    /// Writes the entry that a record has in a key of its table, counted from 1, and tells whether it did. Of bytes that
    /// are no record it may write bytes without a meaning.
    pub(crate) fn write(&mut self, schema: &Schema, which: u8, key: &[u8], value: &[u8]) -> bool
        requires { HasSecondary schema.now which }
        ensures { (version : Version) → IsVersion version → IsRecordOf schema.now version key.now value.now
            → length (entry_of schema.now which version.row key.now) ≤ 67
            → IsTrue result × (self.new ≡ entry_of schema.now which version.row key.now) }
    {
        if entry_from(schema, which, key, value, &mut self.entry).is_err() {
            return false;
        }
        if write_over(self.alloc, &mut self.lists, self.entry.as_slice()) {
            self.last = self.entry.len();
            return true;
        }
        false
    }

    /// Whether two records with this primary key have the same entry in a key of their table, counted from 1.
    pub(crate) fn is_same(
        &mut self,
        schema: &Schema,
        which: u8,
        key: &[u8],
        one: &[u8],
        other: &[u8],
    ) -> bool
        requires { HasSecondary schema.now which }
        ensures { (first second : Version) → IsVersion first → IsVersion second
            → IsRecordOf schema.now first key.now one.now → IsRecordOf schema.now second key.now other.now
            → length (entry_of schema.now which first.row key.now) ≤ 67
            → length (entry_of schema.now which second.row key.now) ≤ 67
            → IsTrue result ↔ (entry_of schema.now which first.row key.now ≡ entry_of schema.now which second.row key.now) }
    {
        if entry_from(schema, which, key, one, &mut self.entry).is_err() {
            return false;
        }
        if entry_from(schema, which, key, other, &mut self.other).is_err() {
            return false;
        }
        self.entry.as_slice() == self.other.as_slice()
    }
}

/// So many lists, one of each length from 0 on.
pub(crate) fn lists_of_each_length(alloc: Global, size: usize) -> Result<Vec<Bytes>, NoMemory>
    ensures { IfOk result (λ lists. AreOfEachLength size lists.items) }
{
    let mut lists = Vec::with_capacity(alloc, size)?;
    for len in 0..size {
        lists.push(Bytes::from_vec(vec![in alloc; 0; len]?))?;
    }
    Ok(lists)
}

/// Writes these bytes over the list of their length, and tells whether there is one.
fn write_over(alloc: Global, lists: &mut Vec<Bytes>, bytes: &[u8]) -> bool
    requires { AreOfEachLength 68 lists.old.items }
    ensures lists { AreOfEachLength 68 lists.new.items }
    ensures there { IsTrue result ↔ (length bytes.now ≤ 67) }
    ensures written { IsTrue result → slice_get lists.new.items (length bytes.now) ≡ Some bytes.now }
{
    if bytes.len() >= lists.len() {
        return false;
    }
    let mut list = mem::replace(&mut lists[bytes.len()], Bytes::new(alloc)).into_vec();
    list.copy_from_slice(bytes);
    lists[bytes.len()] = Bytes::from_vec(list);
    true
}
