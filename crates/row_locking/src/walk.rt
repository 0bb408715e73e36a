//! The steps of a search that locks along its index: to the next pair, whose record and gap are locked in the same step,
//! and past its range.
//! `search` alone calls these, by its phase.

ghost use Rattle.std.specs.Prelude.{◌≡◌, ◌≢◌, ◌≤◌, ◌<◌, length, Some, vec_capacity};
ghost use Rattle.inno_db.specs.Indexes.{index_of};
ghost use Rattle.world.specs.State.{WorldState};
ghost use Rattle.row_locking.specs.Searches.{MayLock};
ghost use Rattle.row_locking.specs.Comes.{Meets, IsPast, IsOnSide};
ghost use Rattle.row_locking.specs.Kept.{kept_with};
ghost use Rattle.row_locking.specs.Steps.{Steps, phase_behind};

use crate::bounds::{Side, copy_of, next_from, side_of};
use crate::one_key::{is_for_one_key, rule_past, rule_within};
use crate::phase::LockingPhase;
use crate::record::found_at;
use crate::search::{Came, Hindrance, LockingSearch, no_memory, refused};
use inno_db::index_number;
use inno_types::{Bytes, Schema};
use lock_rules::Rule;
use row_search::FoundRow;
use std::alloc::Global;
use std::mem;
use store_api::{MOST_BYTES_OF_KEY, Move};
use world::{LockAnswer, LockWorld, World};

/// The value of a marked entry.
const MARKED: [u8; 1] = [1];

/// What comes behind a record that was locked: nothing where one record at most lies in the range.
fn behind(one: bool) -> LockingPhase
    ensures { result ≡ phase_behind one }
{
    if one {
        LockingPhase::Sort
    } else {
        LockingPhase::Next
    }
}

impl LockingSearch {
    /// The number of the searched index.
    pub(crate) fn index(&self) -> u32
        ensures { result ≡ index_of self.now.scan.table self.now.scan.which }
    {
        index_number(self.scan.table, self.scan.which)
    }

    /// The search has come past this key.
    pub(crate) fn pass(&mut self, key: Bytes)
        ensures { self.new ≡ record self.old { passed = Some key } }
    {
        if let Some(last) = mem::replace(&mut self.passed, Some(key)) {
            self.scan.pair.key.keep(last);
        }
    }

    /// Keeps a row, if there is one. There is room for it.
    pub(crate) fn keep(&mut self, found: Option<FoundRow>)
        requires { length self.old.scan.rows.items < vec_capacity self.old.scan.rows }
        ensures rows { self.new.scan.rows.items ≡ kept_with self.old.scan.rows.items found }
        ensures rest { self.new ≡ record self.old { scan = record self.old.scan { rows = self.new.scan.rows } } }
    {
        if let Some(row) = found {
            self.scan.rows.push_reserved(row);
        }
    }

    /// To the first pair that the search has not passed.
    pub(crate) fn next<W: LockWorld>(
        &mut self,
        alloc: Global,
        world: &mut W,
        schema: &Schema,
        now: u64,
    ) -> (LockingPhase, Came)
        requires { MayLock schema.now (W.state world.old) (record self.old { phase = LockingPhase.Next }) }
        ensures { Steps now schema.now (W.state world.old) (W.state world.new) (record self.old { phase = LockingPhase.Next }) (record self.new { phase = result.0 }) result.1 }
    {
        let index = self.index();
        let low = &self.scan.range.low;
        let Ok(from) = next_from(alloc, low, &self.passed, &mut self.scan.primary) else {
            return (LockingPhase::Next, no_memory());
        };
        let found = world.seek(index, self.asker.session, &from, &mut self.scan.pair);
        self.scan.primary.keep(from);
        match found {
            Move::At(key, value) => self.meet(alloc, world, schema, now, key, value),
            Move::End => self.lock_past(world, schema, now, None),
            hindrance => (
                LockingPhase::Next,
                Came::Hindered(Hindrance::Call(hindrance)),
            ),
        }
    }

    /// At that pair. One that lies before the range is passed without a lock.
    fn meet<W: LockWorld>(
        &mut self,
        alloc: Global,
        world: &mut W,
        schema: &Schema,
        now: u64,
        key: Bytes,
        value: Bytes,
    ) -> (LockingPhase, Came)
        requires { (start : WorldState) × Meets schema.now start (W.state world.old) (record self.old { phase = LockingPhase.Next }) (Some (key, value)) }
        ensures { (start : WorldState) → Meets schema.now start (W.state world.old) (record self.old { phase = LockingPhase.Next }) (Some (key, value))
            → Steps now schema.now start (W.state world.new) (record self.old { phase = LockingPhase.Next }) (record self.new { phase = result.0 }) result.1 }
    {
        if key.len() > MOST_BYTES_OF_KEY {
            return (LockingPhase::Next, Came::Hindered(Hindrance::Malformed));
        }
        match side_of(&self.scan.range, key.as_slice()) {
            Side::Before => {
                self.scan.pair.value.keep(value);
                self.pass(key);
                (LockingPhase::Next, Came::Went)
            }
            Side::Within => {
                if self.scan.which == 0 {
                    self.lock_record(alloc, world, schema, now, key, value)
                } else {
                    self.lock_entry(alloc, world, schema, now, key, value)
                }
            }
            Side::Behind => {
                self.scan.pair.value.keep(value);
                self.lock_past(world, schema, now, Some(key))
            }
        }
    }

    /// A record of the clustered index, in the range. It is read first, so that the last thing that may fail is the lock.
    fn lock_record<W: LockWorld>(
        &mut self,
        alloc: Global,
        world: &mut W,
        schema: &Schema,
        now: u64,
        key: Bytes,
        value: Bytes,
    ) -> (LockingPhase, Came)
        requires met { (start : WorldState) × Meets schema.now start (W.state world.old) (record self.old { phase = LockingPhase.Next }) (Some (key, value)) }
        requires short { length key ≤ 67 }
        requires within { IsOnSide self.old.scan.range key Side.Within }
        requires which { self.old.scan.which ≡ 0 }
        ensures { (start : WorldState) → Meets schema.now start (W.state world.old) (record self.old { phase = LockingPhase.Next }) (Some (key, value))
            → Steps now schema.now start (W.state world.new) (record self.old { phase = LockingPhase.Next }) (record self.new { phase = result.0 }) result.1 }
    {
        let memory = &mut self.scan.primary;
        let read = found_at(alloc, schema, 0, key.as_slice(), value.as_slice(), memory);
        self.scan.pair.value.keep(value);
        let found = match read {
            Ok(found) => found,
            Err(why) => return (LockingPhase::Next, refused(why)),
        };
        let Ok(name) = copy_of(alloc, key.as_slice()) else {
            return (LockingPhase::Next, no_memory());
        };
        if self.scan.rows.reserve(1).is_err() {
            return (LockingPhase::Next, no_memory());
        }
        let one = is_for_one_key(schema, self.scan.which, &self.scan.range);
        let rule = rule_within(one, found.is_none());
        let lock = self.asker.lock(rule, self.index(), Some(name));
        match world.ask(self.asker.session, lock, now) {
            LockAnswer::Granted => {
                self.keep(found);
                self.pass(key);
                (behind(one), Came::Went)
            }
            LockAnswer::Waits => (LockingPhase::Next, Came::Hindered(Hindrance::Waits)),
            LockAnswer::NoMemory => (LockingPhase::Next, no_memory()),
        }
    }

    /// An entry of a key, in the range. A marked one is passed; the record of another one comes next.
    fn lock_entry<W: LockWorld>(
        &mut self,
        alloc: Global,
        world: &mut W,
        schema: &Schema,
        now: u64,
        key: Bytes,
        value: Bytes,
    ) -> (LockingPhase, Came)
        requires met { (start : WorldState) × Meets schema.now start (W.state world.old) (record self.old { phase = LockingPhase.Next }) (Some (key, value)) }
        requires short { length key ≤ 67 }
        requires within { IsOnSide self.old.scan.range key Side.Within }
        requires which { self.old.scan.which ≢ 0 }
        ensures { (start : WorldState) → Meets schema.now start (W.state world.old) (record self.old { phase = LockingPhase.Next }) (Some (key, value))
            → Steps now schema.now start (W.state world.new) (record self.old { phase = LockingPhase.Next }) (record self.new { phase = result.0 }) result.1 }
    {
        let marked = value.as_slice() == MARKED.as_slice();
        self.scan.pair.value.keep(value);
        let Ok(name) = copy_of(alloc, key.as_slice()) else {
            return (LockingPhase::Next, no_memory());
        };
        let lock = self.asker.lock(Rule::RangeRecord, self.index(), Some(name));
        match world.ask(self.asker.session, lock, now) {
            LockAnswer::Granted => {
                if marked {
                    self.pass(key);
                    (LockingPhase::Next, Came::Went)
                } else {
                    (LockingPhase::Row { entry: key }, Came::Went)
                }
            }
            LockAnswer::Waits => (LockingPhase::Next, Came::Hindered(Hindrance::Waits)),
            LockAnswer::NoMemory => (LockingPhase::Next, no_memory()),
        }
    }

    /// Past the range: the gap before its first record there, or before the supremum, is locked. The search is over.
    fn lock_past<W: LockWorld>(
        &mut self,
        world: &mut W,
        schema: &Schema,
        now: u64,
        key: Option<Bytes>,
    ) -> (LockingPhase, Came)
        requires { (start : WorldState) × IsPast schema.now start (W.state world.old) (record self.old { phase = LockingPhase.Next }) key }
        ensures { (start : WorldState) → IsPast schema.now start (W.state world.old) (record self.old { phase = LockingPhase.Next }) key
            → Steps now schema.now start (W.state world.new) (record self.old { phase = LockingPhase.Next }) (record self.new { phase = result.0 }) result.1 }
    {
        let one = is_for_one_key(schema, self.scan.which, &self.scan.range);
        let lock = self.asker.lock(rule_past(one), self.index(), key);
        match world.ask(self.asker.session, lock, now) {
            LockAnswer::Granted => (LockingPhase::Sort, Came::Went),
            LockAnswer::Waits => (LockingPhase::Next, Came::Hindered(Hindrance::Waits)),
            LockAnswer::NoMemory => (LockingPhase::Next, no_memory()),
        }
    }
}
