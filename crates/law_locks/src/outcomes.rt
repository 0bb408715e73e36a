//! What a lock table tells of a wait that has ended: it was served, its record went, or it was taken back.
//! They speak of one call each; between two calls nothing is told anew.

ghost use Rattle.std.specs.Prelude.{◌≡◌, ◌==◌, ℕ, true, false, Option, List, [], Contains};
ghost use Rattle.std.specs.List.{list_any};
ghost use Rattle.inno_types.specs.declared.lock.Spot.{Spot};
ghost use Rattle.inno_types.specs.declared.lock.Lock.{Lock};
ghost use Rattle.lock_rules.specs.Spots.{same_spot};
ghost use Rattle.lock_table.specs.declared.wait.Wait.TheVariants.{Served, RecordGone, Withdrawn};
ghost use Rattle.lock_table.specs.Queue.{serve, is_waiting, AreSingle};
ghost use Rattle.lock_table.specs.Records.{after_removal};
ghost use Rattle.lock_table.specs.View.{Table, with_lists, without_request, wait_of};

/// A request that is taken back is told so.
pub fn requests_taken_back_are_told()
    ensures { (txn : ℕ) (table : Table) (lock : Lock) → lock.txn ≡ txn → is_waiting txn table.waiting ≡ true
        → wait_of (without_request txn table) lock ≡ Withdrawn }
{}

/// A request of the queue that waits no more once requests were granted in order is told as served, whichever call did so.
pub fn requests_served_are_told()
    ensures { (table : Table) (held queue : List Lock) (lock : Lock) → Contains queue lock
        → is_waiting lock.txn (serve held [] queue).waiting ≡ false → list_any (λ other. other == lock.txn) table.withdrawn ≡ false
        → wait_of (with_lists table (serve held [] queue)) lock ≡ Served }
{}

/// A request whose record goes is told so.
pub fn requests_whose_record_went_are_told()
    ensures { (by : Option ℕ) (gone next : Spot) (table : Table) (lock : Lock) → same_spot next gone ≡ false
        → AreSingle table.waiting → Contains table.waiting lock → lock.spot ≡ gone → list_any (λ other. other == lock.txn) table.withdrawn ≡ false
        → wait_of (with_lists table (after_removal by gone next table.granted table.waiting)) lock ≡ RecordGone }
{}
