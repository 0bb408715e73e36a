//! Room for an undo record in the form that the calls of a world take: lists of bytes, which show nobody what room they have.
//! So there is one list of each length, for the key and for the value. They are written over and lent for one step.

ghost use Rattle.std.specs.Prelude.{◌≡◌, ℕ, ◌<◌, [], length, slice_index_or, slice_set};
ghost use Rattle.row_versions.specs.declared.place.Place.{Place};
ghost use Rattle.row_versions.specs.Chains.{Chains};
ghost use Rattle.law_stored_rows.specs.Tables.{Said};
ghost use Rattle.world.specs.Told.{TellsTogether};
ghost use Rattle.world.specs.Undoing.{read_into};
ghost use Rattle.row_changes.specs.Awaited.{AwaitsNoMore};
ghost use Rattle.undo_apply.specs.Stages.{IsPuttingBack, PutsBack};

use crate::entry_room::lists_of_each_length;
use crate::taking_back::put_back;
use crate::work_room::WorkRoom;
use inno_types::Bytes;
use std::alloc::Global;
use std::marker::Model;
use std::mem;
use store_api::{MOST_BYTES_OF_KEY, MOST_BYTES_OF_VALUE, Move, NoMemory, Undo};
use world::{EngineWorld, UndoRoom};

/// Lists for the longest key and the longest value, and for all that are shorter. Contracts see nothing of them.
#[derive(Drop)]
pub struct RecordRoom {
    alloc: Global,
    keys: Vec<Bytes>,
    values: Vec<Bytes>,
}

impl Model for RecordRoom {
    ghost use Rattle.std.specs.Prelude.{ℕ};

    ghost Value = { ℕ };

    ghost use Rattle.undo_apply.specs.RecordRoom.{HasLists};

    ghost view = { λ _. 0 };

    ghost invariant = { HasLists };
}

impl RecordRoom {
    /// Takes the memory for the longest record.
    pub fn new(alloc: Global) -> Result<RecordRoom, NoMemory> {
        Ok(RecordRoom {
            alloc,
            keys: lists_of_each_length(alloc, MOST_BYTES_OF_KEY + 1)?,
            values: lists_of_each_length(alloc, MOST_BYTES_OF_VALUE + 1)?,
        })
    }

    /// One step of the taking back of the change whose undo record was read, as `put_back`.
    pub fn put_back<W: EngineWorld>(
        &mut self,
        world: &mut W,
        actor: u32,
        read: &UndoRoom,
        room: &mut WorkRoom,
    ) -> Move
        requires under_way { (chains : Chains) × (beside : Said) × (place : Place)
            × IsPuttingBack chains beside place (read_into read.now) room.old (W.state world.old) }
        requires together { TellsTogether (W.state world.old) }
        ensures puts { (chains : Chains) (beside : Said) (place : Place) → IsPuttingBack chains beside place (read_into read.now) room.old (W.state world.old)
            → PutsBack chains beside place actor (read_into read.now) room.old room.new (W.state world.old) (W.state world.new) result }
        ensures awaits { AwaitsNoMore (W.state world.old) (W.state world.new) }
    {
        let undo = Undo {
            kind: read.kind,
            table: read.table,
            key: take_written(self.alloc, &mut self.keys, &read.key),
            value: take_written(self.alloc, &mut self.values, &read.value),
        };
        let answer = put_back(world, actor, &undo, room);
        let Undo { key, value, .. } = undo;
        give_back(&mut self.keys, key);
        give_back(&mut self.values, value);
        answer
    }
}

/// Takes out the list that is as long as these bytes, with them written over it. An empty list stands in its place.
fn take_written(alloc: Global, lists: &mut Vec<Bytes>, bytes: &[u8]) -> Bytes
    requires there { length bytes.now < length lists.old.items }
    requires long { length (slice_index_or lists.old.items (length bytes.now) []) ≡ length bytes.now }
    ensures written { result ≡ bytes.now }
    ensures lists { lists.new.items ≡ slice_set lists.old.items (length bytes.now) [] }
{
    let mut list = mem::replace(&mut lists[bytes.len()], Bytes::new(alloc)).into_vec();
    list.copy_from_slice(bytes);
    Bytes::from_vec(list)
}

/// Puts a list back to its place.
fn give_back(lists: &mut Vec<Bytes>, list: Bytes)
    requires { length list < length lists.old.items }
    ensures { lists.new.items ≡ slice_set lists.old.items (length list) list }
{
    let len = list.len();
    lists[len] = list;
}
