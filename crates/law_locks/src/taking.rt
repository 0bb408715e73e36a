//! The call of a lock table that goes with an insertion: no want of memory and no wait comes behind the intention.
//! `take_new` is no law: the insertion of a record, and of an entry, will call it once rows are locked one by one.

ghost use Rattle.std.specs.Prelude.{◌≡◌, ℕ, ◌+◌, ◌++◌, false, true, length, IsTrue, List, IfOk, IfSome};
ghost use Rattle.lock_rules.specs.Rules.{FitsItsRule};
ghost use Rattle.lock_table.specs.Keys.{IsShort};
ghost use Rattle.lock_table.specs.Records.{copies, own_gaps};
ghost use Rattle.lock_table.specs.Coverage.{IsInsertion};
ghost use Rattle.lock_table.specs.View.{IsAskedFor, HasPlaces};
ghost use Rattle.law_locks.specs.Stand.{AllStand};
ghost use Rattle.law_locks.specs.AtOnce.{IsAlone, TakesNew};

use inno_types::{Lock, Spot};
use lock_table::LockTable;

/// Copies the inserter's locks of the gap to the record that has come, and takes the record for it alone.
pub fn take_new(locks: &mut LockTable, new: &Spot, next: &Spot, own: &Lock)
    requires fits { FitsItsRule own.now }
    requires rule { IsAskedFor own.now.reason.rule }
    requires short { IsShort own.now.spot.key }
    requires own_is { IsAlone own.now.txn new.now own.now }
    requires stands { (records : List (List ℕ)) × (key : List ℕ) × IsInsertion records key new.now next.now × AllStand new.now.index records locks.old.granted locks.old.waiting }
    requires room { HasPlaces (own_gaps own.now.txn next.now locks.old.granted + 1) locks.old }
    ensures { (key : List ℕ) → TakesNew own.now.txn key new.now next.now own.now locks.old locks.new }
{
    locks.grant_new(own, next);
}
