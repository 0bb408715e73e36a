//! Laws of the lock lists: what locks cover never shrinks, and granted locks stand side by side.
//! Each function has an empty body: its contract is the law. Nothing calls them.

ghost use Rattle.std.specs.Prelude.{◌≡◌, ◌≢◌, ℕ, true, Option, Some, List, ◌∷◌, ◌++◌};
ghost use Rattle.inno_types.specs.declared.lock.Spot.{Spot};
ghost use Rattle.inno_types.specs.declared.lock.Lock.{Lock};
ghost use Rattle.lock_rules.specs.Coverage.{covered, without_record};
ghost use Rattle.lock_table.specs.Records.{copies, after_removal};
ghost use Rattle.lock_table.specs.Coverage.{IsInsertion, IsRemoval, AreUpper, StandOnRecords, MayInsert};

/// When a record is inserted, each transaction's locks cover all keys that they covered, but for the new record's own:
/// the inserter's locks of the gap are copied, and another's would have made the insert wait.
pub fn insertion_keeps_coverage()
    ensures { (records : List (List ℕ)) (new_key : List ℕ) (new next : Spot) (inserter : ℕ) (intention : Lock) (granted : List Lock) (txn : ℕ) (key : List ℕ)
        → IsInsertion records new_key new next
        → StandOnRecords new.index records granted
        → MayInsert inserter next granted intention
        → key ≢ new_key
        → covered txn new.index records granted key ≡ true
        → covered txn new.index (new_key ∷ records) (granted ++ copies inserter new next granted) key ≡ true }
{}

/// When a record goes, the locks of each transaction of an upper level cover all keys that they covered, unless it is
/// the transaction's own change that is put back.
pub fn removal_keeps_coverage()
    ensures { (records : List (List ℕ)) (gone_key : List ℕ) (gone next : Spot) (by : Option ℕ) (granted waiting : List Lock) (txn : ℕ) (key : List ℕ)
        → IsRemoval records gone_key gone next
        → by ≢ Some txn
        → AreUpper txn granted
        → covered txn gone.index records granted key ≡ true
        → covered txn gone.index (without_record gone_key records) (after_removal by gone next granted waiting).granted key ≡ true }
{}
