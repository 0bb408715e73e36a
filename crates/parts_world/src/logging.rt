//! Changes of an index that bring an undo record, and room for one. The record stands in the session's log once the
//! store has made the change with it.

ghost use Rattle.std.specs.Prelude.{◌≡◌, ◌≤◌, ◌<◌, length, Some};
ghost use Rattle.world.specs.Undoing.{MakesRoom};
ghost use Rattle.world.specs.State.{IsIndex};
ghost use Rattle.world.specs.Widths.{HasKeyLen, HasValueLen};
ghost use Rattle.world.specs.Indexes.{Changes, MayLog, InsertsWith, ReplacesWith};
ghost use Rattle.parts_world.specs.Parts.{world_of};

use crate::parts_world::PartsWorld;
use index_store::{IndexStore, Room};
use inno_types::Bytes;
use store_api::{Move, Undo};
use world_parts::copy_undo;

impl<I: IndexStore> PartsWorld<I> {
    /// Gives the log of the actor's transaction room for one record of so many bytes.
    pub(crate) fn make_room(&mut self, actor: u32, bytes: u16) -> Move
        requires joined { actor < length (world_of (I.store self.old.store) self.old).sessions }
        requires few { bytes ≤ 4032 }
        ensures { MakesRoom actor bytes (world_of (I.store self.old.store) self.old) (world_of (I.store self.new.store) self.new) result }
    {
        let Ok(before) = self.sessions[actor as usize].make_room() else {
            return Move::NoMemory;
        };
        let answer = self.store.undo_room(actor, bytes);
        if let Move::Done = answer {
            self.sessions[actor as usize].promise(self.store.room(actor));
        } else {
            self.sessions[actor as usize].promise(before);
        }
        answer
    }

    /// Adds a pair with its undo record.
    pub(crate) fn insert_logged(
        &mut self,
        index: u32,
        actor: u32,
        key: &Bytes,
        value: &Bytes,
        undo: &Undo,
    ) -> Move
        requires index { IsIndex (world_of (I.store self.old.store) self.old).schemas index }
        requires key { length key.now ≤ 67 }
        requires value { length value.now ≤ 1024 }
        requires key_len { HasKeyLen (world_of (I.store self.old.store) self.old).schemas index key.now }
        requires value_len { HasValueLen (world_of (I.store self.old.store) self.old).schemas index value.now }
        requires undo { MayLog actor undo.now (world_of (I.store self.old.store) self.old) }
        ensures { Changes index actor (Some undo.now) (λ before after answer. InsertsWith (Some undo.now) actor key.now value.now before after answer) (world_of (I.store self.old.store) self.old) (world_of (I.store self.new.store) self.new) result }
    {
        let Ok(copy) = copy_undo(undo) else {
            self.store.stay(index);
            return Move::NoMemory;
        };
        let answer = self.store.insert(index, actor, key, value, Some(undo));
        if let Move::Done = answer {
            self.sessions[actor as usize].log(copy);
        } else {
            drop(copy);
        }
        answer
    }

    /// Gives the key another value, with its undo record.
    pub(crate) fn replace_logged(
        &mut self,
        index: u32,
        actor: u32,
        key: &Bytes,
        value: &Bytes,
        undo: &Undo,
    ) -> Move
        requires index { IsIndex (world_of (I.store self.old.store) self.old).schemas index }
        requires value { length value.now ≤ 1024 }
        requires value_len { HasValueLen (world_of (I.store self.old.store) self.old).schemas index value.now }
        requires undo { MayLog actor undo.now (world_of (I.store self.old.store) self.old) }
        ensures { Changes index actor (Some undo.now) (λ before after answer. ReplacesWith (Some undo.now) actor key.now value.now before after answer) (world_of (I.store self.old.store) self.old) (world_of (I.store self.new.store) self.new) result }
    {
        let Ok(copy) = copy_undo(undo) else {
            self.store.stay(index);
            return Move::NoMemory;
        };
        let answer = self.store.replace(index, actor, key, value, Some(undo));
        if let Move::Done = answer {
            self.sessions[actor as usize].log(copy);
        } else {
            drop(copy);
        }
        answer
    }
}
