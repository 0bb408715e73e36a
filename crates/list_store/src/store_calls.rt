//! The calls by which a world drives the store. Each ends at once, but where another actor is awaited or memory is wanting.

ghost use Rattle.std.specs.Prelude.{◌≡◌, ◌+◌, ◌≤◌, vec_len, vec_capacity};
ghost use Rattle.list_store.specs.Memory.{at_hand};
ghost use Rattle.list_store.specs.Parts.{AreAdded};

use crate::list_store::ListStore;
use crate::slots::Slots;
use entries::{Entries, ListIndex, PairBuffers};
use index_store::{IndexStore, MemoryStore, Room};
use inno_db::INDEXES_OF_TABLE;
use inno_types::{Bytes, Listed, Schema};
use row_versions::ChainBad;
use std::alloc::Global;
use store_api::{Move, NoMemory, Undo, Version, Visit};

impl IndexStore for ListStore {
    ghost use Rattle.list_store.specs.Parts.{store_of};

    ghost store = { store_of };

    fn seek(&mut self, index: u32, actor: u32, from: &Bytes, buffers: &mut PairBuffers) -> Move {
        self.indexes[index as usize].seek(actor, from, buffers)
    }

    fn following(&mut self, index: u32, actor: u32, buffers: &mut PairBuffers) -> Move {
        self.indexes[index as usize].following(actor, buffers)
    }

    fn fetch(&mut self, index: u32, actor: u32, key: &Bytes, into: &mut Vec<u8>) -> Move {
        self.indexes[index as usize].fetch(actor, key, into)
    }

    fn next_key(&mut self, index: u32, actor: u32, key: &Bytes, into: &mut Vec<u8>) -> Move {
        self.indexes[index as usize].next_key(actor, key, into)
    }

    #[tactic(auto, using(crate::proofs::Indexed::counts_none))]
    fn insert(
        &mut self,
        index: u32,
        actor: u32,
        key: &Bytes,
        value: &Bytes,
        undo: Option<&Undo>,
    ) -> Move {
        match undo {
            None => self.indexes[index as usize].insert(actor, key, value),
            Some(undo) => self.insert_logged(index, actor, key, value, undo),
        }
    }

    #[tactic(auto, using(crate::proofs::Indexed::counts_none))]
    fn replace(
        &mut self,
        index: u32,
        actor: u32,
        key: &Bytes,
        value: &Bytes,
        undo: Option<&Undo>,
    ) -> Move {
        match undo {
            None => self.indexes[index as usize].replace(actor, key, value),
            Some(undo) => self.replace_logged(index, actor, key, value, undo),
        }
    }

    fn remove(&mut self, index: u32, actor: u32, key: &Bytes) -> Move {
        self.indexes[index as usize].remove(actor, key)
    }

    fn tidy(&mut self, index: u32, actor: u32) -> Move {
        self.indexes[index as usize].tidy(actor)
    }

    fn leave(&mut self, index: u32, actor: u32) {
        let list = &mut self.indexes[index as usize];
        // It does nothing, and tells that the pairs are sound.
        let _ = list.tidy(actor);
        list.leave(actor);
    }

    #[tactic(auto, using(crate::proofs::Indexed::tidied))]
    fn stay(&mut self, index: u32) {
        // It does nothing, and tells that the pairs are sound.
        let _ = self.indexes[index as usize].tidy(0);
    }

    fn version(&mut self, pointer: u64) -> Result<Option<Version>, ChainBad> {
        self.slots.version(pointer)
    }

    fn value(&mut self, pointer: u64, into: &mut Vec<u8>) -> Result<bool, Visit> {
        self.slots.value(pointer, into)
    }

    fn undo_room(&mut self, s: u32, bytes: u16) -> Move {
        match self.make_room(s, bytes) {
            Ok(()) => Move::Done,
            Err(_) => Move::NoMemory,
        }
    }

    fn room(&self, s: u32) -> Room {
        match self.rooms.get(s as usize) {
            Some(room) => *room,
            None => Room {
                bytes: 0,
                pointer: 0,
            },
        }
    }

    fn cut_back(&mut self, _actor: u32, _s: u32, _pointer: u64, _kind: u8) -> Move {
        Move::Done
    }

    fn commit(&mut self, _s: u32) -> Move {
        Move::Done
    }

    fn roll_back(&mut self, _s: u32) -> Move {
        Move::Done
    }

    fn free_log(&mut self, _s: u32) -> Move {
        Move::Done
    }

    fn tables(&self) -> &Listed<Schema> {
        &self.schemas
    }

    fn make_table(&mut self, schema: &Schema) -> Result<(), NoMemory> {
        let copy = schema.copied()?;
        self.indexes.reserve(INDEXES_OF_TABLE as usize)?;
        self.schemas.push(copy)?;
        add_indexes(self.alloc, &mut self.indexes);
        Ok(())
    }
}

impl MemoryStore for ListStore {
    fn new(alloc: Global) -> Self {
        ListStore {
            alloc,
            schemas: Listed::new(alloc),
            indexes: Vec::new(alloc),
            slots: Slots::new(alloc),
            rooms: Vec::new(alloc),
        }
    }

    ghost never_delays = { at_hand };
}

/// Adds the indexes of a table, for which there is room. They are empty.
#[tactic(auto, using(crate::proofs::Tables::added_one, crate::proofs::Tables::added_none))]
fn add_indexes(alloc: Global, indexes: &mut Vec<ListIndex>)
    requires { vec_len indexes.old + INDEXES_OF_TABLE ≤ vec_capacity indexes.old }
    ensures { AreAdded INDEXES_OF_TABLE indexes.old.items indexes.new.items }
{
    for _added in 0..INDEXES_OF_TABLE {
        indexes.push(ListIndex::new(alloc).unwrap()).unwrap();
    }
}
