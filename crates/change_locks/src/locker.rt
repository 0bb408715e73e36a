//! Who asks for the locks of a change, and its three calls of a world.
//! Rules are those of `lock_rules`; the lock table, by the world, says who waits.

ghost use Rattle.std.specs.Prelude.{◌≡◌, ◌+◌, ℕ, List, true, is_some, IfOk};
ghost use Rattle.lock_rules.specs.declared.rule.Rule.TheVariants.{ToInsert, Inserted};
ghost use Rattle.lock_table.specs.Coverage.{IsInsertion};
ghost use Rattle.lock_table.specs.Keys.{IsShort};
ghost use Rattle.lock_table.specs.Records.{own_gaps};
ghost use Rattle.lock_table.specs.View.{HasPlaces};
ghost use Rattle.law_locks.specs.AtOnce.{TakesNew};
ghost use Rattle.law_locks.specs.Stand.{AllStand};
ghost use Rattle.world.specs.Locks.{Asks, ChangesLocks};
ghost use Rattle.change_locks.specs.Locking.{lock_by, MayLock, IsOnRecord, MakesWay};

use inno_types::{Level, Lock, Mode, Reason, Spot};
use lock_rules::Rule;
use std::alloc::AllocError;
use store_api::NoMemory;
use world::{LockAnswer, LockWorld};

/// A session whose open transaction locks for an item.
#[derive(Clone, Copy)]
pub struct Locker {
    pub session: u32,
    /// The number of its transaction in order of begin, from 1.
    pub txn: u64,
    pub level: Level,
    /// The number of its item, from 1.
    pub item: u32,
    /// The moment of its step, in seconds.
    pub at: u64,
}

impl Locker {
    /// Asks for the lock of a record that is there: shared where an INSERT finds its key (`Rule::DuplicateCheck`), for itself
    /// alone where a change puts a row in it, or marks or unmarks an entry (`Rule::Changed`). Want of memory changes nothing.
    /// MySQL 8.0 Reference Manual, "Locks Set by Different SQL Statements in InnoDB".
    pub fn lock_record<W: LockWorld>(&self, world: &mut W, rule: Rule, spot: Spot) -> LockAnswer
        requires may { MayLock self.now (W.state world.old) }
        requires rule { IsOnRecord rule }
        requires key { is_some spot.key ≡ true }
        requires short { IsShort spot.key }
        ensures { Asks self.now.session (lock_by rule self.now spot) self.now.at (W.state world.old) (W.state world.new) result }
    {
        world.ask(self.session, self.lock(rule, spot), self.at)
    }

    /// Takes the memory for the locks of a record that is to be inserted before the next one, or before the supremum, and asks
    /// for the intention to insert there. Once it is granted, nothing hinders `hold_new`. Want of memory changes nothing but room.
    /// MySQL 8.0 Reference Manual, "InnoDB Locking", "Insert Intention Locks".
    pub fn make_way<W: LockWorld>(&self, world: &mut W, next: &Spot) -> LockAnswer
        requires may { MayLock self.now (W.state world.old) }
        requires short { IsShort next.now.key }
        ensures { MakesWay self.now next.now (W.state world.old) (W.state world.new) result }
    {
        let Ok(spot) = copy_of(next) else {
            return LockAnswer::NoMemory;
        };
        let Ok(()) = world.lock_room(self.session, next) else {
            drop(spot);
            return LockAnswer::NoMemory;
        };
        world.ask(self.session, self.lock(Rule::ToInsert, spot), self.at)
    }

    /// The record has come before the next one: the transaction's own locks of the gap are copied to it, and it has the record
    /// alone. `lock` is what `new_record` made. It takes no memory.
    pub fn hold_new<W: LockWorld>(&self, world: &mut W, lock: &Lock, next: &Spot)
        requires lock { lock.now ≡ lock_by Inserted self.now lock.now.spot }
        requires key { is_some lock.now.spot.key ≡ true }
        requires short { IsShort lock.now.spot.key }
        requires stands { (records : List (List ℕ)) × (key : List ℕ) × IsInsertion records key lock.now.spot next.now × AllStand lock.now.spot.index records (W.state world.old).locks.granted (W.state world.old).locks.waiting }
        requires room { HasPlaces (own_gaps self.now.txn next.now (W.state world.old).locks.granted + 1) (W.state world.old).locks }
        ensures takes { (key : List ℕ) → TakesNew self.now.txn key lock.now.spot next.now lock.now (W.state world.old).locks (W.state world.new).locks }
        ensures rest { ChangesLocks (W.state world.old) (W.state world.new) }
    {
        world.on_insert(lock, next);
    }

    /// The lock of a record that is to be inserted, for `hold_new`.
    pub fn new_record(&self, spot: Spot) -> Lock
        ensures { result ≡ lock_by Inserted self.now spot }
    {
        self.lock(Rule::Inserted, spot)
    }

    fn lock(&self, rule: Rule, spot: Spot) -> Lock
        ensures { result ≡ lock_by rule self.now spot }
    {
        Lock {
            txn: self.txn,
            spot,
            kind: rule.kind(),
            mode: rule.mode(Mode::X),
            reason: Reason {
                rule: rule.number(),
                item: self.item,
                level: self.level,
            },
        }
    }
}

fn copy_of(spot: &Spot) -> Result<Spot, AllocError>
    ensures { IfOk result (λ copy. copy ≡ spot.now) }
{
    spot.clone()
}
