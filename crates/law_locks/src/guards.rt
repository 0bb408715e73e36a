//! What is guarded stays guarded.
//! Each law is of one call of a lock table, whoever makes it.

ghost use Rattle.std.specs.Prelude.{◌≡◌, ◌≢◌, ℕ, true, false, Option, List, [], ◌∷◌};
ghost use Rattle.std.specs.List.{AllByRecursion};
ghost use Rattle.inno_types.specs.declared.lock.Spot.{Spot};
ghost use Rattle.inno_types.specs.declared.lock.Lock.{Lock};
ghost use Rattle.store_api.specs.declared.answers.Asked.{Asked};
ghost use Rattle.store_api.specs.declared.answers.Undo.{Undo};
ghost use Rattle.lock_rules.specs.Coverage.{without_record};
ghost use Rattle.lock_rules.specs.Rules.{FitsItsRule};
ghost use Rattle.lock_table.specs.Queue.{serve, without, without_lock, is_covered};
ghost use Rattle.lock_table.specs.Records.{after_removal, after_end};
ghost use Rattle.lock_table.specs.View.{Table, IsAnswered, IsGranted};
ghost use Rattle.law_locks.specs.Guards.{Guards, Guarded, Pins, has_record, has_alone};
ghost use Rattle.law_locks.specs.Stand.{Inserts, Removes};

/// When a record is inserted, each transaction guards what it has guarded: of another's gap the insertion would have had to
/// wait, and the inserter's own locks of it are copied.
pub fn insertions_keep_guards()
    ensures { (txn inserter : ℕ) (records : List (List ℕ)) (new_key key : List ℕ) (new next : Spot) (old locks : List Lock)
        → Inserts inserter records new_key new next old locks
        → Guards txn new.index records old key
        → Guards txn new.index (new_key ∷ records) locks key }
{}

/// When a record goes, by the rollback of whomever or by purge, each transaction guards what it has guarded: each lock of
/// the gap before the record becomes one of the next gap.
pub fn removals_keep_guards()
    ensures { (txn : ℕ) (by : Option ℕ) (records : List (List ℕ)) (gone_key key : List ℕ) (gone next : Spot) (granted waiting : List Lock)
        → Removes records gone_key gone next
        → AllByRecursion FitsItsRule granted
        → Guards txn gone.index records granted key
        → Guards txn gone.index (without_record gone_key records) (after_removal by gone next granted waiting).granted key }
{}

/// Locks of other records stay then, and so does what a unique search has found.
pub fn removals_keep_other_records()
    ensures records { (txn : ℕ) (by : Option ℕ) (records : List (List ℕ)) (gone_key key : List ℕ) (gone next : Spot) (granted waiting : List Lock)
        → Removes records gone_key gone next → key ≢ gone_key
        → has_record txn gone.index key granted ≡ true → has_record txn gone.index key (after_removal by gone next granted waiting).granted ≡ true }
    ensures alone { (txn : ℕ) (by : Option ℕ) (records : List (List ℕ)) (gone_key key : List ℕ) (gone next : Spot) (granted waiting : List Lock)
        → Removes records gone_key gone next → key ≢ gone_key
        → has_alone txn gone.index key granted ≡ true → has_alone txn gone.index key (after_removal by gone next granted waiting).granted ≡ true }
    ensures pins { (txn : ℕ) (by : Option ℕ) (records : List (List ℕ)) (gone_key key : List ℕ) (gone next : Spot) (granted waiting : List Lock)
        → Removes records gone_key gone next → key ≢ gone_key
        → Pins txn gone.index records granted key → Pins txn gone.index (without_record gone_key records) (after_removal by gone next granted waiting).granted key }
{}

/// A request keeps what is guarded, however it is answered.
pub fn requests_keep_guards()
    ensures guards { (txn index : ℕ) (records : List (List ℕ)) (key : List ℕ) (old new : Table) (lock : Lock) (answer : Asked)
        → IsAnswered old new lock answer → Guards txn index records old.granted key → Guards txn index records new.granted key }
    ensures guarded { (txn index : ℕ) (records : List (List ℕ)) (key : List ℕ) (made : ℕ) (log : List Undo) (old new : Table) (lock : Lock) (answer : Asked)
        → IsAnswered old new lock answer → Guarded txn index records old.granted key made log → Guarded txn index records new.granted key made log }
    ensures alone { (txn index : ℕ) (key : List ℕ) (old new : Table) (lock : Lock) (answer : Asked)
        → IsAnswered old new lock answer → has_alone txn index key old.granted ≡ true → has_alone txn index key new.granted ≡ true }
{}

/// So does the end of another transaction.
pub fn ends_of_others_keep_guards()
    ensures guards { (txn other index : ℕ) (records : List (List ℕ)) (key : List ℕ) (granted waiting : List Lock)
        → txn ≢ other → Guards txn index records granted key → Guards txn index records (after_end other granted waiting).granted key }
    ensures guarded { (txn other index : ℕ) (records : List (List ℕ)) (key : List ℕ) (made : ℕ) (log : List Undo) (granted waiting : List Lock)
        → txn ≢ other → Guarded txn index records granted key made log → Guarded txn index records (after_end other granted waiting).granted key made log }
    ensures alone { (txn other index : ℕ) (key : List ℕ) (granted waiting : List Lock)
        → txn ≢ other → has_alone txn index key granted ≡ true → has_alone txn index key (after_end other granted waiting).granted ≡ true }
{}

/// So does a lock that another gives back.
pub fn releases_of_others_keep_guards()
    ensures guards { (txn index : ℕ) (records : List (List ℕ)) (key : List ℕ) (gone : Lock) (granted waiting : List Lock)
        → txn ≢ gone.txn → Guards txn index records granted key → Guards txn index records (serve (without_lock gone granted) [] waiting).granted key }
    ensures guarded { (txn index : ℕ) (records : List (List ℕ)) (key : List ℕ) (made : ℕ) (log : List Undo) (gone : Lock) (granted waiting : List Lock)
        → txn ≢ gone.txn → Guarded txn index records granted key made log → Guarded txn index records (serve (without_lock gone granted) [] waiting).granted key made log }
    ensures alone { (txn index : ℕ) (key : List ℕ) (gone : Lock) (granted waiting : List Lock)
        → txn ≢ gone.txn → has_alone txn index key granted ≡ true → has_alone txn index key (serve (without_lock gone granted) [] waiting).granted ≡ true }
{}

/// A lock that no other covered may be given back as soon as it is granted: each transaction, its own too, then has what it
/// had before.
pub fn new_locks_given_back_keep_guards()
    ensures guards { (txn index : ℕ) (records : List (List ℕ)) (key : List ℕ) (old new : Table) (lock : Lock) → is_covered old.granted lock ≡ false → IsGranted old new lock
        → Guards txn index records old.granted key → Guards txn index records (serve (without_lock lock new.granted) [] new.waiting).granted key }
    ensures guarded { (txn index : ℕ) (records : List (List ℕ)) (key : List ℕ) (made : ℕ) (log : List Undo) (old new : Table) (lock : Lock) → is_covered old.granted lock ≡ false → IsGranted old new lock
        → Guarded txn index records old.granted key made log → Guarded txn index records (serve (without_lock lock new.granted) [] new.waiting).granted key made log }
    ensures alone { (txn index : ℕ) (key : List ℕ) (old new : Table) (lock : Lock) → is_covered old.granted lock ≡ false → IsGranted old new lock
        → has_alone txn index key old.granted ≡ true → has_alone txn index key (serve (without_lock lock new.granted) [] new.waiting).granted ≡ true }
{}

/// So does a request that is taken back, by whomever.
pub fn withdrawals_keep_guards()
    ensures guards { (txn other index : ℕ) (records : List (List ℕ)) (key : List ℕ) (granted waiting : List Lock)
        → Guards txn index records granted key → Guards txn index records (serve granted [] (without other waiting)).granted key }
    ensures guarded { (txn other index : ℕ) (records : List (List ℕ)) (key : List ℕ) (made : ℕ) (log : List Undo) (granted waiting : List Lock)
        → Guarded txn index records granted key made log → Guarded txn index records (serve granted [] (without other waiting)).granted key made log }
    ensures alone { (txn other index : ℕ) (key : List ℕ) (granted waiting : List Lock)
        → has_alone txn index key granted ≡ true → has_alone txn index key (serve granted [] (without other waiting)).granted ≡ true }
{}
