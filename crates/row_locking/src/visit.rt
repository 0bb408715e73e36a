//! The step of a search that locks at the clustered record of an entry; and its last ones.
//! `search` alone calls these, by its phase.

ghost use Rattle.std.specs.Prelude.{◌≡◌, ℕ, List, Option, Some, OnOk, OnErr};
ghost use Rattle.std.specs.Ordering.{is_lt};
ghost use Rattle.std.specs.List.Sorted.{IsPermutation, IsSortedBy};
ghost use Rattle.entries.specs.Pairs.{key_cmp};
ghost use Rattle.world.specs.State.{WorldState};
ghost use Rattle.row_search.specs.declared.found.FoundRow.{FoundRow};
ghost use Rattle.row_locking.specs.Searches.{MayLock};
ghost use Rattle.row_locking.specs.Comes.{Reads};
ghost use Rattle.row_locking.specs.Kept.{IsKept};
ghost use Rattle.row_locking.specs.Steps.{Steps};

use crate::bounds::{copy_of, primary_of};
use crate::phase::LockingPhase;
use crate::record::found_at;
use crate::search::{Came, Hindrance, LockingSearch, no_memory, refused};
use inno_db::index_number;
use inno_types::{Bytes, Schema};
use lock_rules::Rule;
use row_search::FoundRow;
use std::alloc::{AllocError, Global};
use std::mem;
use store_api::{MOST_BYTES_OF_VALUE, Move};
use world::{LockAnswer, LockWorld, World};

/// Puts rows into the order of their keys. An `Err` changes nothing.
fn sort_by_key(rows: &mut Vec<FoundRow>) -> Result<(), AllocError>
    ensures same { IsPermutation rows.old.items rows.new.items }
    ensures ok { OnOk result (IsSortedBy (λ a b. is_lt (key_cmp a.key b.key)) rows.new.items) }
    ensures err { OnErr result (rows.new.items ≡ rows.old.items) }
{
    rows.sort_by(|a, b| a.key.as_slice().cmp(b.key.as_slice()))
}

impl LockingSearch {
    /// The clustered record of an entry is read, and locked in the same step.
    pub(crate) fn row<W: LockWorld>(
        &mut self,
        alloc: Global,
        world: &mut W,
        schema: &Schema,
        now: u64,
        entry: Bytes,
    ) -> (LockingPhase, Came)
        requires { MayLock schema.now (W.state world.old) (record self.old { phase = LockingPhase.Row entry }) }
        ensures { Steps now schema.now (W.state world.old) (W.state world.new) (record self.old { phase = LockingPhase.Row entry }) (record self.new { phase = result.0 }) result.1 }
    {
        let primary = primary_of(schema, entry.as_slice());
        let Ok(key) = self.scan.primary.filled(alloc, primary) else {
            return (LockingPhase::Row { entry }, no_memory());
        };
        let Ok(mut bytes) = self.scan.pair.value.with_room(alloc, MOST_BYTES_OF_VALUE) else {
            return (LockingPhase::Row { entry }, no_memory());
        };
        let clustered = index_number(self.scan.table, 0);
        let answer = world.fetch(clustered, self.asker.session, &key, &mut bytes);
        self.scan.primary.keep(key);
        match answer {
            Move::Done => self.read(alloc, world, schema, now, entry, Bytes::from_vec(bytes)),
            Move::End => self.lock_row(alloc, world, schema, now, entry, None),
            hindrance => (
                LockingPhase::Row { entry },
                Came::Hindered(Hindrance::Call(hindrance)),
            ),
        }
    }

    /// With the bytes of that record.
    fn read<W: LockWorld>(
        &mut self,
        alloc: Global,
        world: &mut W,
        schema: &Schema,
        now: u64,
        entry: Bytes,
        bytes: Bytes,
    ) -> (LockingPhase, Came)
        requires { (start : WorldState) × Reads schema.now start (W.state world.old) (record self.old { phase = LockingPhase.Row entry }) entry (Some bytes) }
        ensures { (start : WorldState) → Reads schema.now start (W.state world.old) (record self.old { phase = LockingPhase.Row entry }) entry (Some bytes)
            → Steps now schema.now start (W.state world.new) (record self.old { phase = LockingPhase.Row entry }) (record self.new { phase = result.0 }) result.1 }
    {
        let memory = &mut self.scan.primary;
        let which = self.scan.which;
        let read = found_at(
            alloc,
            schema,
            which,
            entry.as_slice(),
            bytes.as_slice(),
            memory,
        );
        self.scan.pair.value.keep(bytes);
        match read {
            Ok(found) => self.lock_row(alloc, world, schema, now, entry, found),
            Err(why) => (LockingPhase::Row { entry }, refused(why)),
        }
    }

    /// With the row that is kept of it, if there is one.
    fn lock_row<W: LockWorld>(
        &mut self,
        alloc: Global,
        world: &mut W,
        schema: &Schema,
        now: u64,
        entry: Bytes,
        found: Option<FoundRow>,
    ) -> (LockingPhase, Came)
        requires { (start : WorldState) × (read : Option (List ℕ)) × Reads schema.now start (W.state world.old) (record self.old { phase = LockingPhase.Row entry }) entry read × IsKept schema.now self.old.scan.which entry read found }
        ensures { (start : WorldState) (read : Option (List ℕ)) → Reads schema.now start (W.state world.old) (record self.old { phase = LockingPhase.Row entry }) entry read
            → IsKept schema.now self.old.scan.which entry read found
            → Steps now schema.now start (W.state world.new) (record self.old { phase = LockingPhase.Row entry }) (record self.new { phase = result.0 }) result.1 }
    {
        let Ok(name) = copy_of(alloc, primary_of(schema, entry.as_slice())) else {
            return (LockingPhase::Row { entry }, no_memory());
        };
        if self.scan.rows.reserve(1).is_err() {
            return (LockingPhase::Row { entry }, no_memory());
        }
        let clustered = index_number(self.scan.table, 0);
        let lock = self
            .asker
            .lock(Rule::ClusteredOfEntry, clustered, Some(name));
        match world.ask(self.asker.session, lock, now) {
            LockAnswer::Granted => {
                self.keep(found);
                self.pass(entry);
                (LockingPhase::Next, Came::Went)
            }
            LockAnswer::Waits => (
                LockingPhase::Row { entry },
                Came::Hindered(Hindrance::Waits),
            ),
            LockAnswer::NoMemory => (LockingPhase::Row { entry }, no_memory()),
        }
    }

    /// The clustered index gives the rows in order, others do not.
    pub(crate) fn sort<W: World>(
        &mut self,
        world: &mut W,
        schema: &Schema,
        now: u64,
    ) -> (LockingPhase, Came)
        requires { MayLock schema.now (W.state world.old) (record self.old { phase = LockingPhase.Sort }) }
        ensures { Steps now schema.now (W.state world.old) (W.state world.new) (record self.old { phase = LockingPhase.Sort }) (record self.new { phase = result.0 }) result.1 }
    {
        if self.scan.which == 0 {
            return (LockingPhase::Leave, Came::Went);
        }
        match sort_by_key(&mut self.scan.rows) {
            Ok(()) => (LockingPhase::Leave, Came::Went),
            Err(_) => (LockingPhase::Sort, no_memory()),
        }
    }

    pub(crate) fn leave<W: World>(
        &mut self,
        alloc: Global,
        world: &mut W,
        schema: &Schema,
        now: u64,
    ) -> (LockingPhase, Came)
        requires { MayLock schema.now (W.state world.old) (record self.old { phase = LockingPhase.Leave }) }
        ensures { Steps now schema.now (W.state world.old) (W.state world.new) (record self.old { phase = LockingPhase.Leave }) (record self.new { phase = result.0 }) result.1 }
    {
        world.leave(self.index(), self.asker.session);
        let rows = mem::replace(&mut self.scan.rows, Vec::new(alloc));
        (LockingPhase::Leave, Came::Done(rows))
    }
}
