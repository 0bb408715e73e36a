//! Who has locked a record alone.
//! Both laws speak of tables whose granted locks stand apart, and of nothing in the queue.

ghost use Rattle.std.specs.Prelude.{◌≡◌, ◌≢◌, ℕ, true, Some, List};
ghost use Rattle.inno_types.specs.declared.lock.Lock.{Lock};
ghost use Rattle.lock_rules.specs.Kinds.{locks_record};
ghost use Rattle.lock_rules.specs.Conflicts.{kind_of};
ghost use Rattle.lock_table.specs.Queue.{AreApart};
ghost use Rattle.lock_table.specs.View.{Table, IsGranted};
ghost use Rattle.law_locks.specs.Guards.{has_alone, has_record};

/// Where a transaction has locked a record alone, no other has locked it.
pub fn nobody_is_beside()
    ensures { (txn other index : ℕ) (key : List ℕ) (granted : List Lock) → txn ≢ other → AreApart granted → has_alone other index key granted ≡ true → has_record txn index key granted ≡ true → ⊥ }
{}

/// So no request for a record is granted while another has it alone.
pub fn nobody_is_granted_what_another_has_alone()
    ensures { (other : ℕ) (key : List ℕ) (old new : Table) (lock : Lock) → lock.txn ≢ other → AreApart new.granted
        → IsGranted old new lock → lock.spot.key ≡ Some key → locks_record (kind_of lock) ≡ true
        → has_alone other lock.spot.index key old.granted ≡ true → ⊥ }
{}
