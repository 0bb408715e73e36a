//! Changes of an index that bring an undo record. Pair and version come together, or neither does.
//! Only the calls of `IndexStore` on indexes and on undo records come here.

ghost use Rattle.std.specs.Prelude.{◌≡◌, ◌==◌, ◌≤◌, ◌<◌, length, slice_get, Some, IfSome, OnOk, OnErr};
ghost use Rattle.row_versions.specs.Versions.{IsShort};
ghost use Rattle.world.specs.State.{IsIndex};
ghost use Rattle.world.specs.Indexes.{InsertsWith, ReplacesWith};
ghost use Rattle.index_store.specs.Indexes.{Changes, MayLog, IsLogged};
ghost use Rattle.index_store.specs.Undoing.{IsReady, IsUnchanged};
ghost use Rattle.list_store.specs.Slots.{filled_if};
ghost use Rattle.list_store.specs.Kept.{KeepsOnly};
ghost use Rattle.list_store.specs.Parts.{room_in, store_of};

use crate::kept::keep_if;
use crate::list_store::ListStore;
use crate::slots::Slots;
use entries::Entries;
use index_store::{IndexStore, Room};
use inno_types::Bytes;
use row_versions::Kept;
use store_api::{Move, NoMemory, Undo};

/// Fills the slot of a pointer, if a version is kept.
fn fill_if(slots: &mut Slots, pointer: u64, kept: Option<Kept>)
    requires above { 0 < pointer }
    requires there { pointer ≤ length slots.old }
    requires short { IfSome kept IsShort }
    ensures { slots.new ≡ filled_if pointer kept slots.old }
{
    if let Some(kept) = kept {
        slots.fill(pointer, kept);
    }
}

/// Makes places for the rooms of the sessions below a number, which have none yet.
fn grow(rooms: &mut Vec<Room>, sessions: usize) -> Result<(), NoMemory>
    ensures long { OnOk result (sessions ≤ length rooms.new.items) }
    ensures same { room_in rooms.new.items ≡ room_in rooms.old.items }
{
    if rooms.len() < sessions {
        let none = Room {
            bytes: 0,
            pointer: 0,
        };
        rooms.resize(sessions, none)?;
    }
    Ok(())
}

impl ListStore {
    /// Keeps the version that the session's undo record brings.
    fn log(&mut self, s: u32, kept: Option<Kept>, undo: &Undo)
        requires kept { KeepsOnly (undo.now.kind == 2) self.old.schemas undo.now kept }
        requires may { MayLog s undo.now (store_of self.old) }
        ensures logged { IsLogged s undo.now (store_of self.old) (store_of self.new) }
        ensures indexes { self.new.indexes ≡ self.old.indexes }
    {
        let room = &mut self.rooms[s as usize];
        room.bytes = 0;
        fill_if(&mut self.slots, room.pointer, kept);
    }

    /// Takes a slot, whose pointer the session's next undo record will have.
    pub(crate) fn make_room(&mut self, s: u32, bytes: u16) -> Result<(), NoMemory>
        ensures ready { OnOk result (IsReady s bytes (store_of self.old) (store_of self.new)) }
        ensures err { OnErr result (IsUnchanged (store_of self.old) (store_of self.new)) }
    {
        grow(&mut self.rooms, s as usize + 1)?;
        let pointer = self.slots.take()?;
        self.rooms[s as usize] = Room { bytes, pointer };
        Ok(())
    }

    /// Adds a pair with its undo record.
    pub(crate) fn insert_logged(
        &mut self,
        index: u32,
        actor: u32,
        key: &Bytes,
        value: &Bytes,
        undo: &Undo,
    ) -> Move
        requires index { IsIndex (store_of self.old).schemas index }
        requires key { length key.now ≤ 67 }
        requires value { length value.now ≤ 1024 }
        requires undo { MayLog actor undo.now (store_of self.old) }
        ensures { Changes index actor (Some undo.now) (λ before after answer. InsertsWith (Some undo.now) actor key.now value.now before after answer) (store_of self.old) (store_of self.new) result }
    {
        let Ok(kept) = keep_if(self.alloc, self.schemas.as_slice(), undo) else {
            self.stay(index);
            return Move::NoMemory;
        };
        let answer = self.indexes[index as usize].insert(actor, key, value);
        if let Move::Done = answer {
            self.log(actor, kept, undo);
        } else {
            drop(kept);
        }
        answer
    }

    /// Gives the key another value, with its undo record.
    pub(crate) fn replace_logged(
        &mut self,
        index: u32,
        actor: u32,
        key: &Bytes,
        value: &Bytes,
        undo: &Undo,
    ) -> Move
        requires index { IsIndex (store_of self.old).schemas index }
        requires value { length value.now ≤ 1024 }
        requires undo { MayLog actor undo.now (store_of self.old) }
        ensures { Changes index actor (Some undo.now) (λ before after answer. ReplacesWith (Some undo.now) actor key.now value.now before after answer) (store_of self.old) (store_of self.new) result }
    {
        let Ok(kept) = keep_if(self.alloc, self.schemas.as_slice(), undo) else {
            self.stay(index);
            return Move::NoMemory;
        };
        let answer = self.indexes[index as usize].replace(actor, key, value);
        if let Move::Done = answer {
            self.log(actor, kept, undo);
        } else {
            drop(kept);
        }
        answer
    }
}
