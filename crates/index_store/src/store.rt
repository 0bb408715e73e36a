//! The calls of every store of indexes. Each is one short step of an actor, a session's by its number, and either is done
//! or says why not. `parts_world` alone makes them.

ghost use Rattle.std.specs.Prelude.{◌≡◌, ◌≤◌, ◌++◌, ◌∷◌, [], false, length, option_copied, vec_capacity, IsSome, OnOk, OnErr, IfOk};
ghost use Rattle.entries.specs.Index.{IsAsBefore};
ghost use Rattle.entries.specs.Calls.{is_done, Seeks, Follows, Fetches, NextKeys, Removes, Tidies, Leaves};
ghost use Rattle.row_versions.specs.Versions.{IsPointer};
ghost use Rattle.row_versions.specs.Calls.{ShowsVersion, ShowsBytes, has_read};
ghost use Rattle.world.specs.State.{IsIndex};
ghost use Rattle.world.specs.Widths.{HasKeyLen, HasValueLen};
ghost use Rattle.world.specs.Indexes.{InsertsWith, ReplacesWith};
ghost use Rattle.index_store.specs.State.{StoreState};
ghost use Rattle.index_store.specs.AtHand.{IsStoreAtHand};
ghost use Rattle.index_store.specs.Indexes.{Calls, Changes, MayBring};
ghost use Rattle.index_store.specs.Undoing.{IsUnchanged, MakesRoom, CutsBack, Ends, Frees, MakesTable, IsNew};

use crate::room::Room;
use entries::PairBuffers;
use inno_types::{Bytes, Listed, Schema};
use row_versions::ChainBad;
use std::alloc::Global;
use store_api::{Move, NoMemory, Undo, Version, Visit};

/// Tables with their indexes, and what undo needs of their rows. An actor is a session by its number.
pub trait IndexStore: Drop {
    /// Everything that the store holds, as plain lists.
    ghost store: { Self → StoreState };

    // ---- indexes

    /// Gives the first pair at or above the key, in the memory of the buffers, or answers `End`. The pair is the actor's
    /// place from now on.
    fn seek(&mut self, index: u32, actor: u32, from: &Bytes, buffers: &mut PairBuffers) -> Move
        requires { IsIndex (store self.old).schemas index }
        ensures { Calls index (λ before after. Seeks actor from.now before after result) (store self.old) (store self.new) };

    /// Gives the first pair above the actor's place, in the memory of the buffers, or answers `End`.
    fn following(&mut self, index: u32, actor: u32, buffers: &mut PairBuffers) -> Move
        requires index { IsIndex (store self.old).schemas index }
        requires place { IsSome (((store self.old).indexes index).place actor) }
        ensures { Calls index (λ before after. Follows actor before after result) (store self.old) (store self.new) };

    /// Puts the key's value into `into`, or answers `End`.
    fn fetch(&mut self, index: u32, actor: u32, key: &Bytes, into: &mut Vec<u8>) -> Move
        requires index { IsIndex (store self.old).schemas index }
        requires holds { 1024 ≤ vec_capacity into.old }
        ensures answer { Calls index (λ before after. Fetches actor key.now into.new.items before after result) (store self.old) (store self.new) }
        ensures untouched { is_done result ≡ false → into.new.items ≡ into.old.items }
        ensures room { vec_capacity into.old ≤ vec_capacity into.new };

    /// Puts the first key above this one into `into`, or answers `End`. Until this actor's next `insert` or `remove` there
    /// has ended, or it leaves, no other actor changes the keys.
    fn next_key(&mut self, index: u32, actor: u32, key: &Bytes, into: &mut Vec<u8>) -> Move
        requires index { IsIndex (store self.old).schemas index }
        requires holds { 67 ≤ vec_capacity into.old }
        ensures answer { Calls index (λ before after. NextKeys actor key.now into.new.items before after result) (store self.old) (store self.new) }
        ensures untouched { is_done result ≡ false → into.new.items ≡ into.old.items }
        ensures room { vec_capacity into.old ≤ vec_capacity into.new };

    /// Adds a pair, or answers `At` with the key's pair, which stays. In an index all keys are equally long, and all values
    /// are. The actor's undo record, for which there is room, and the version that it keeps come with the pair.
    fn insert(
        &mut self,
        index: u32,
        actor: u32,
        key: &Bytes,
        value: &Bytes,
        undo: Option<&Undo>,
    ) -> Move
        requires index { IsIndex (store self.old).schemas index }
        requires key { length key.now ≤ 67 }
        requires value { length value.now ≤ 1024 }
        requires key_len { HasKeyLen (store self.old).schemas index key.now }
        requires value_len { HasValueLen (store self.old).schemas index value.now }
        requires undo { MayBring actor (option_copied undo) (store self.old) }
        ensures { Changes index actor (option_copied undo.entry) (λ before after answer. InsertsWith (option_copied undo.entry) actor key.now value.now before after answer) (store self.old) (store self.new) result };

    /// Gives the key another value, or answers `End`. The undo record comes with the value.
    fn replace(
        &mut self,
        index: u32,
        actor: u32,
        key: &Bytes,
        value: &Bytes,
        undo: Option<&Undo>,
    ) -> Move
        requires index { IsIndex (store self.old).schemas index }
        requires value { length value.now ≤ 1024 }
        requires value_len { HasValueLen (store self.old).schemas index value.now }
        requires undo { MayBring actor (option_copied undo) (store self.old) }
        ensures { Changes index actor (option_copied undo.entry) (λ before after answer. ReplacesWith (option_copied undo.entry) actor key.now value.now before after answer) (store self.old) (store self.new) result };

    /// Removes the key's pair, or answers `End`.
    fn remove(&mut self, index: u32, actor: u32, key: &Bytes) -> Move
        requires { IsIndex (store self.old).schemas index }
        ensures { Calls index (λ before after. Removes actor key.now before after result) (store self.old) (store self.new) };

    /// Merges the pages that the actor left too thin, up to `Done`.
    fn tidy(&mut self, index: u32, actor: u32) -> Move
        requires { IsIndex (store self.old).schemas index }
        ensures { Calls index (λ before after. Tidies actor before after result) (store self.old) (store self.new) };

    /// Drops the actor's place. It is no longer awaited.
    fn leave(&mut self, index: u32, actor: u32)
        requires { IsIndex (store self.old).schemas index }
        ensures { Calls index (Leaves actor) (store self.old) (store self.new) };

    /// Leaves the index as it is. Whoever finds no memory before a call of the index answers so by this, which tells that
    /// its pairs are sound.
    fn stay(&mut self, index: u32)
        requires { IsIndex (store self.old).schemas index }
        ensures { Calls index IsAsBefore (store self.old) (store self.new) };

    // ---- versions and undo records

    /// The version of a roll pointer, or `None` for pointer 0.
    fn version(&mut self, pointer: u64) -> Result<Option<Version>, ChainBad>
        requires { IsPointer pointer (store self.old).versions }
        ensures answer { ShowsVersion pointer (store self.old).versions (store self.new).versions result }
        ensures rest { IsUnchanged (store self.old) (store self.new) };

    /// Puts the encoded version of a pointer into `into`, or answers false for pointer 0.
    fn value(&mut self, pointer: u64, into: &mut Vec<u8>) -> Result<bool, Visit>
        requires pointer { IsPointer pointer (store self.old).versions }
        requires holds { 1024 ≤ vec_capacity into.old }
        ensures answer { ShowsBytes pointer into.new.items (store self.old).versions (store self.new).versions result }
        ensures untouched { has_read result ≡ false → into.new.items ≡ into.old.items }
        ensures room { vec_capacity into.old ≤ vec_capacity into.new }
        ensures rest { IsUnchanged (store self.old) (store self.new) };

    /// Gives the session's next undo record room for so many bytes.
    fn undo_room(&mut self, s: u32, bytes: u16) -> Move
        requires { bytes ≤ 4032 }
        ensures { MakesRoom s bytes (store self.old) (store self.new) result };

    /// The room of the session's next undo record.
    fn room(&self, s: u32) -> Room
        ensures { result ≡ (store self.now).rooms s };

    /// The newest undo record of a session, which is of this kind and behind this pointer, is needed no longer.
    fn cut_back(&mut self, actor: u32, s: u32, pointer: u64, kind: u8) -> Move
        ensures { CutsBack actor s pointer kind (store self.old) (store self.new) result };

    /// The session's transaction commits. It takes no memory.
    fn commit(&mut self, s: u32) -> Move
        ensures { Ends s (store self.old) (store self.new) result };

    /// The session's transaction, whose changes are taken back, ends. It takes no memory.
    fn roll_back(&mut self, s: u32) -> Move
        ensures { Ends s (store self.old) (store self.new) result };

    /// Gives back what the undo records of the session's last transaction kept, up to `Done`. It takes no memory.
    fn free_log(&mut self, s: u32) -> Move
        ensures { Frees s (store self.old) (store self.new) result };

    // ---- tables

    /// The tables, by number.
    fn tables(&self) -> &Listed<Schema>
        ensures { result.now ≡ (store self.now).schemas };

    /// Makes a table, whose indexes are empty. An `Err` changes nothing.
    fn make_table(&mut self, schema: &Schema) -> Result<(), NoMemory>
        ensures ok { OnOk result (MakesTable schema.now (store self.old) (store self.new)) }
        ensures err { OnErr result (store self.new ≡ store self.old) };
}

/// A store in memory. It begins with nothing, and tells all that it holds.
pub trait MemoryStore: IndexStore {
    /// A store without tables.
    fn new(alloc: Global) -> Self
        ensures { IsNew (Self.store result) };

    /// It tells all that it holds, and nothing of it is ever put off.
    ghost never_delays: { (store : Self) → IsStoreAtHand (Self.store store) };
}
