//! Each lock and each request stands on a record of its index, or on the supremum.
//! Where that is, specs/Stand.antt tells; each law is of one change of a lock table or of its records.

ghost use Rattle.std.specs.Prelude.{◌≡◌, ℕ, true, false, Option, List, [], ◌∷◌, ◌++◌};
ghost use Rattle.inno_types.specs.declared.lock.Spot.{Spot};
ghost use Rattle.inno_types.specs.declared.lock.Lock.{Lock};
ghost use Rattle.store_api.specs.declared.answers.Asked.{Asked};
ghost use Rattle.lock_rules.specs.Coverage.{stands_in, without_record};
ghost use Rattle.lock_table.specs.Queue.{serve, without, without_lock, is_blocked};
ghost use Rattle.lock_table.specs.Records.{copies, after_removal, after_end};
ghost use Rattle.lock_table.specs.Coverage.{IsInsertion};
ghost use Rattle.lock_table.specs.View.{Table, HasPlaces, IsAnswered, IsGranted};
ghost use Rattle.law_locks.specs.Stand.{AllStand, Removes};

/// A request on a record or the supremum leaves all locks standing.
pub fn requests_leave_locks_standing()
    ensures { (index : ℕ) (records : List (List ℕ)) (old new : Table) (lock : Lock) (answer : Asked)
        → IsAnswered old new lock answer → (lock.spot.index ≡ index → stands_in records lock.spot.key ≡ true)
        → AllStand index records old.granted old.waiting → AllStand index records new.granted new.waiting }
{}

/// So does the end of a transaction.
pub fn ends_leave_locks_standing()
    ensures { (index txn : ℕ) (records : List (List ℕ)) (granted waiting : List Lock)
        → AllStand index records granted waiting → AllStand index records (after_end txn granted waiting).granted (after_end txn granted waiting).waiting }
{}

/// So does a lock that is given back.
pub fn releases_leave_locks_standing()
    ensures { (index : ℕ) (records : List (List ℕ)) (gone : Lock) (granted waiting : List Lock)
        → AllStand index records granted waiting → AllStand index records (serve (without_lock gone granted) [] waiting).granted (serve (without_lock gone granted) [] waiting).waiting }
{}

/// So does a request that is taken back.
pub fn withdrawals_leave_locks_standing()
    ensures { (index txn : ℕ) (records : List (List ℕ)) (granted waiting : List Lock)
        → AllStand index records granted waiting → AllStand index records (serve granted [] (without txn waiting)).granted (serve granted [] (without txn waiting)).waiting }
{}

/// So does a record that is inserted.
pub fn insertions_leave_locks_standing()
    ensures { (txn : ℕ) (records : List (List ℕ)) (new_key : List ℕ) (new next : Spot) (granted waiting : List Lock)
        → IsInsertion records new_key new next
        → AllStand new.index records granted waiting
        → AllStand new.index (new_key ∷ records) (granted ++ copies txn new next granted) waiting }
{}

/// No lock stands on a record that is new, so that its inserter's lock is granted at once.
pub fn new_records_are_free()
    ensures { (txn : ℕ) (records : List (List ℕ)) (new_key : List ℕ) (new next : Spot) (granted waiting : List Lock) (asked : Lock)
        → IsInsertion records new_key new next
        → AllStand new.index records granted waiting
        → asked.txn ≡ txn → asked.spot ≡ new
        → is_blocked (granted ++ copies txn new next granted) waiting asked ≡ false }
{}

/// Where room was taken for it, no want of memory comes in between, either.
pub fn new_records_with_room_are_granted()
    ensures { (txn : ℕ) (records : List (List ℕ)) (new_key : List ℕ) (new next : Spot) (old inserted last : Table) (asked : Lock) (answer : Asked)
        → IsInsertion records new_key new next
        → AllStand new.index records old.granted old.waiting
        → inserted.granted ≡ old.granted ++ copies txn new next old.granted → inserted.waiting ≡ old.waiting
        → HasPlaces 1 inserted
        → asked.txn ≡ txn → asked.spot ≡ new
        → IsAnswered inserted last asked answer → IsGranted inserted last asked }
{}

/// And a record that goes leaves all locks standing.
pub fn removals_leave_locks_standing()
    ensures { (by : Option ℕ) (records : List (List ℕ)) (gone_key : List ℕ) (gone next : Spot) (granted waiting : List Lock)
        → Removes records gone_key gone next
        → AllStand gone.index records granted waiting
        → AllStand gone.index (without_record gone_key records) (after_removal by gone next granted waiting).granted (after_removal by gone next granted waiting).waiting }
{}
