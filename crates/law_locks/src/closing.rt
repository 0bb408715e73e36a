//! Which calls of a lock table can close a cycle of waits: a request that waits, and a record that goes.
//! Each law compares the waits before one call with those behind it; how a cycle is found is no part of it.

ghost use Rattle.std.specs.Prelude.{◌≡◌, ◌⊎◌, ℕ, true, false, Option, List, [], ◌++◌, All, Contains};
ghost use Rattle.inno_types.specs.declared.lock.Spot.{Spot};
ghost use Rattle.inno_types.specs.declared.lock.Edge.{Edge};
ghost use Rattle.inno_types.specs.declared.lock.Lock.{Lock};
ghost use Rattle.lock_table.specs.Queue.{serve, without, without_lock, is_waiting, AreSingle};
ghost use Rattle.lock_table.specs.Records.{copies, after_removal, after_end};
ghost use Rattle.lock_table.specs.View.{Table, IsGranted, IsQueued, IsRefused};
ghost use Rattle.deadlock.specs.Cycles.{waiters, IsCycle};
ghost use Rattle.law_locks.specs.Waits.{inserters, Meets};

/// An edge to a transaction that does not wait lies on no cycle.
pub fn only_who_waits_is_on_a_cycle()
    ensures { (granted waiting : List Lock) (cycle : List Edge) → IsCycle granted waiting cycle
        → All (λ edge. is_waiting edge.holder waiting ≡ true) cycle }
{}

/// So a lock that is granted to one who does not wait closes none: each cycle stood before.
pub fn grants_close_no_cycle()
    ensures { (old new : Table) (lock : Lock) (cycle : List Edge)
        → AreSingle old.waiting → is_waiting lock.txn old.waiting ≡ false → IsGranted old new lock
        → IsCycle new.granted new.waiting cycle → IsCycle old.granted old.waiting cycle }
{}

/// Nor does a request that is refused for want of memory.
pub fn refusals_close_no_cycle()
    ensures { (old new : Table) (lock : Lock) (cycle : List Edge) → IsRefused old new lock
        → IsCycle new.granted new.waiting cycle → IsCycle old.granted old.waiting cycle }
{}

/// Nor a request that is taken back, with all that is granted then.
pub fn withdrawals_close_no_cycle()
    ensures { (txn : ℕ) (granted waiting : List Lock) (cycle : List Edge) → AreSingle waiting
        → IsCycle (serve granted [] (without txn waiting)).granted (serve granted [] (without txn waiting)).waiting cycle → IsCycle granted waiting cycle }
{}

/// Nor the end of a transaction.
pub fn ends_close_no_cycle()
    ensures { (txn : ℕ) (granted waiting : List Lock) (cycle : List Edge) → AreSingle waiting
        → IsCycle (after_end txn granted waiting).granted (after_end txn granted waiting).waiting cycle → IsCycle granted waiting cycle }
{}

/// Nor a lock that is given back.
pub fn releases_close_no_cycle()
    ensures { (gone : Lock) (granted waiting : List Lock) (cycle : List Edge) → AreSingle waiting
        → IsCycle (serve (without_lock gone granted) [] waiting).granted (serve (without_lock gone granted) [] waiting).waiting cycle → IsCycle granted waiting cycle }
{}

/// Nor a record that is inserted by one who does not wait.
pub fn insertions_close_no_cycle()
    ensures { (txn : ℕ) (new next : Spot) (granted waiting : List Lock) (cycle : List Edge) → AreSingle waiting → is_waiting txn waiting ≡ false
        → IsCycle (granted ++ copies txn new next granted) waiting cycle → IsCycle granted waiting cycle }
{}

/// A request that waits closes cycles through its own transaction alone.
pub fn queued_requests_close_their_own()
    ensures { (old new : Table) (lock : Lock) (edges cycle : List Edge) → AreSingle old.waiting → IsQueued old new lock edges
        → IsCycle new.granted new.waiting cycle → IsCycle old.granted old.waiting cycle ⊎ Contains (waiters cycle) lock.txn }
{}

/// A record that goes closes cycles through those alone who wait to insert before the next one.
pub fn removals_close_those_of_inserters()
    ensures { (by : Option ℕ) (gone next : Spot) (granted waiting : List Lock) (cycle : List Edge) → AreSingle waiting
        → IsCycle (after_removal by gone next granted waiting).granted (after_removal by gone next granted waiting).waiting cycle
        → IsCycle granted waiting cycle ⊎ Meets (inserters next waiting) cycle }
{}
