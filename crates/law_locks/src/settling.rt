//! Cycles are ended by rounds: of each the victim's request goes.
//! No engine makes such rounds yet.

ghost use Rattle.std.specs.Prelude.{◌≡◌, ℕ, ◌+◌, ◌≤◌, Option, List, [], ◌∷◌, length};
ghost use Rattle.inno_types.specs.declared.lock.Spot.{Spot};
ghost use Rattle.inno_types.specs.declared.lock.Edge.{Edge};
ghost use Rattle.inno_types.specs.declared.lock.Lock.{Lock};
ghost use Rattle.lock_table.specs.Queue.{Lists, AreSound};
ghost use Rattle.lock_table.specs.Records.{after_removal};
ghost use Rattle.lock_table.specs.View.{Table, IsQueued};
ghost use Rattle.deadlock.specs.Cycles.{HasNoCycle};
ghost use Rattle.deadlock.specs.Victim.{IsVictim};
ghost use Rattle.deadlock.specs.declared.rollback.Size.{Size};
ghost use Rattle.law_locks.specs.Waits.{AreFree, AllMeet, inserters};
ghost use Rattle.law_locks.specs.Settling.{Round, AreRounds, AreSettled, after_withdrawal, after_rounds};

/// Of each cycle one transaction alone is the victim.
pub fn one_victim_is_chosen()
    ensures { (cycle : List Edge) (sizes : List Size) (asked : Option ℕ) (txn other : ℕ)
        → IsVictim cycle sizes asked txn → IsVictim cycle sizes asked other → txn ≡ other }
{}

/// Once its request is gone, the victim is on no cycle any more.
pub fn victims_are_on_no_cycle()
    ensures { (txn : ℕ) (lists : Lists) → HasNoCycle txn (after_withdrawal txn lists).granted (after_withdrawal txn lists).waiting }
{}

/// Each round takes one request or more out of the queue, so there are no more rounds than requests.
pub fn rounds_come_to_an_end()
    ensures { (grown : List ℕ) (sizes : List Size) (asked : Option ℕ) (lists : Lists) (rounds : List Round)
        → AreRounds grown sizes asked lists rounds → length (after_rounds lists rounds).waiting + length rounds ≤ length lists.waiting }
{}

/// Where each cycle goes through one of these transactions, none stands once the rounds over them have come to their end.
pub fn settled_waits_have_no_cycle()
    ensures { (grown : List ℕ) (sizes : List Size) (asked : Option ℕ) (lists : Lists) (rounds : List Round)
        → AreSound lists.granted lists.waiting → AllMeet grown lists.granted lists.waiting → AreSettled grown sizes asked lists rounds
        → AreFree (after_rounds lists rounds).granted (after_rounds lists rounds).waiting }
{}

/// So after a request that waits it is enough to end those through the asker.
pub fn waits_are_settled()
    ensures { (old new : Table) (lock : Lock) (edges : List Edge) (sizes : List Size) (asked : Option ℕ) (rounds : List Round)
        → AreSound old.granted old.waiting → AreFree old.granted old.waiting → IsQueued old new lock edges → AreSound new.granted new.waiting
        → AreSettled (lock.txn ∷ []) sizes asked (record { granted = new.granted; waiting = new.waiting }) rounds
        → AreFree (after_rounds (record { granted = new.granted; waiting = new.waiting }) rounds).granted (after_rounds (record { granted = new.granted; waiting = new.waiting }) rounds).waiting }
{}

/// And after a record went, those through the transactions that wait to insert before the next one.
pub fn removals_are_settled()
    ensures { (by : Option ℕ) (gone next : Spot) (granted waiting : List Lock) (sizes : List Size) (asked : Option ℕ) (rounds : List Round)
        → AreSound granted waiting → AreFree granted waiting
        → AreSettled (inserters next waiting) sizes asked (after_removal by gone next granted waiting) rounds
        → AreFree (after_rounds (after_removal by gone next granted waiting) rounds).granted (after_rounds (after_removal by gone next granted waiting) rounds).waiting }
{}
