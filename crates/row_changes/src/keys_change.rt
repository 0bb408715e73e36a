//! The keys of a table take over a change of a row that is recorded: per key in order, the old row's entry is marked where
//! its value goes, and then the new row's is put. A key whose value stays is passed over.

ghost use Rattle.std.specs.Prelude.{◌≡◌, ◌<◌, Some, None, IfOk, MatchOption, length, slice_get};
ghost use Rattle.inno_types.specs.declared.value.Schema.{Schema};
ghost use Rattle.row_versions.specs.Chains.{Chains};
ghost use Rattle.law_stored_rows.specs.{Edits.key_index, Tables.Said};
ghost use Rattle.row_changes.specs.Keys.{StayBetween, AreEntries};
ghost use Rattle.row_changes.specs.Awaited.{AwaitsNoMore};
ghost use Rattle.row_changes.specs.Keys.{IsChangingKeys, ChangesKeys, keys_next};
ghost use Rattle.row_changes.specs.Reached.{Went};
ghost use Rattle.row_changes.specs.InPlace.{reached_at};

use crate::entry_mark::EntryMark;
use crate::entry_put::EntryPut;
use crate::key_entries::{KeyEntries, index_of_key, next_entries};
use inno_types::{Bytes, Row};
use std::alloc::Global;
use store_api::{Move, NoMemory, Stepped};
use world::{EngineWorld, World};

/// A change of a row that the keys of its table are taking over.
#[derive(Drop)]
pub struct KeysChange {
    pub table: u8,
    /// The key of the row's clustered record.
    pub key: Bytes,
    /// The row that readers of the newest rows found before the change.
    pub before: Option<Row>,
    /// The one that they find now.
    pub after: Option<Row>,
    /// The keys before this one are done.
    pub which: usize,
    /// The new row's entry in this key. The old row's is marked, if there was one.
    pub put: Option<EntryPut>,
}

impl KeysChange {
    /// One step. Between the steps others may change other rows, and what keys say of those. It asks that nobody else changes
    /// this row.
    pub fn advance<W: EngineWorld>(
        &mut self,
        alloc: Global,
        world: &mut W,
        actor: u32,
    ) -> Stepped<(), Move>
        requires { (chains : Chains) × (beside : Said) × IsChangingKeys chains beside (W.state world.old) self.old }
        ensures changes { (chains : Chains) (beside : Said) → IsChangingKeys chains beside (W.state world.old) self.old → ChangesKeys actor chains beside (W.state world.old) (W.state world.new) self.old (reached_at self.new result) }
        ensures awaits { AwaitsNoMore (W.state world.old) (W.state world.new) }
    {
        let Some(put) = &mut self.put else {
            return self.pass(alloc, world, actor);
        };
        match put.step(alloc, world, actor) {
            Stepped::Went => Stepped::Went,
            Stepped::Done(()) => {
                self.which += 1;
                self.put = None;
                Stepped::Went
            }
            Stepped::Hindered(why) => Stepped::Hindered(why),
        }
    }

    /// Comes to the next key whose value doesn't stay.
    fn pass<W: World>(&mut self, alloc: Global, world: &mut W, actor: u32) -> Stepped<(), Move>
        requires changing { (chains : Chains) × (beside : Said) × IsChangingKeys chains beside (W.state world.old) self.old }
        requires none { self.old.put ≡ None }
        ensures changes { (chains : Chains) (beside : Said) → IsChangingKeys chains beside (W.state world.old) self.old → ChangesKeys actor chains beside (W.state world.old) (W.state world.new) self.old (reached_at self.new result) }
        ensures awaits { AwaitsNoMore (W.state world.old) (W.state world.new) }
    {
        match self.entries(alloc, world) {
            Ok(Some(entries)) => self.take_over(entries, alloc, world, actor),
            Ok(None) => Stepped::Done(()),
            Err(NoMemory) => Stepped::Hindered(Move::NoMemory),
        }
    }

    /// The entries in the next key whose value doesn't stay, if there is one.
    fn entries<W: World>(&self, alloc: Global, world: &W) -> Result<Option<KeyEntries>, NoMemory>
        requires { (chains : Chains) × (beside : Said) × IsChangingKeys chains beside (W.state world.now) self.now }
        ensures { IfOk result (λ found. (schema : Schema) → slice_get (W.state world.now).schemas self.now.table ≡ Some schema → MatchOption found (StayBetween schema self.now.which (length schema.keys) self.now.before self.now.after) (AreEntries schema self.now.which self.now.before self.now.after self.now.key)) }
    {
        match world.schema(self.table) {
            Some(schema) => next_entries(
                alloc,
                schema,
                self.which,
                &self.before,
                &self.after,
                &self.key,
            ),
            None => unreachable!(),
        }
    }

    /// Marks the old row's entry, if there is one.
    fn take_over<W: World>(
        &mut self,
        entries: KeyEntries,
        alloc: Global,
        world: &mut W,
        actor: u32,
    ) -> Stepped<(), Move>
        requires changing { (chains : Chains) × (beside : Said) × IsChangingKeys chains beside (W.state world.old) self.old }
        requires none { self.old.put ≡ None }
        requires entries { (schema : Schema) → slice_get (W.state world.old).schemas self.old.table ≡ Some schema → AreEntries schema self.old.which self.old.before self.old.after self.old.key entries }
        ensures changes { (chains : Chains) (beside : Said) → IsChangingKeys chains beside (W.state world.old) self.old → ChangesKeys actor chains beside (W.state world.old) (W.state world.new) self.old (reached_at self.new result) }
        ensures awaits { AwaitsNoMore (W.state world.old) (W.state world.new) }
    {
        let KeyEntries { which, old, new } = entries;
        let index = index_of_key(self.table, which);
        match old {
            Some(entry) => self.mark(EntryMark { index, entry }, which, new, alloc, world, actor),
            None => self.next(index, which, new),
        }
    }

    fn mark<W: World>(
        &mut self,
        mark: EntryMark,
        which: usize,
        new: Option<Bytes>,
        alloc: Global,
        world: &mut W,
        actor: u32,
    ) -> Stepped<(), Move>
        requires changing { (chains : Chains) × (beside : Said) × IsChangingKeys chains beside (W.state world.old) self.old }
        requires none { self.old.put ≡ None }
        requires index { mark.index ≡ key_index self.old.table which }
        requires entries { (schema : Schema) → slice_get (W.state world.old).schemas self.old.table ≡ Some schema → AreEntries schema self.old.which self.old.before self.old.after self.old.key (record { which = which; old = Some mark.entry; new = new }) }
        ensures changes { (chains : Chains) (beside : Said) → IsChangingKeys chains beside (W.state world.old) self.old → ChangesKeys actor chains beside (W.state world.old) (W.state world.new) self.old (reached_at self.new result) }
        ensures awaits { AwaitsNoMore (W.state world.old) (W.state world.new) }
    {
        let index = mark.index;
        match mark.step(alloc, world, actor) {
            Ok(()) => self.next(index, which, new),
            Err(why) => Stepped::Hindered(why),
        }
    }

    /// The new row's entry comes next, or the next key where there is none.
    fn next(&mut self, index: u32, which: usize, entry: Option<Bytes>) -> Stepped<(), Move>
        requires { which < 4 }
        ensures { reached_at self.new result ≡ Went (keys_next self.old index which entry) }
    {
        match entry {
            Some(entry) => {
                self.which = which;
                self.put = Some(EntryPut::new(index, entry));
            }
            None => {
                self.which = which + 1;
                self.put = None;
            }
        }
        Stepped::Went
    }
}
