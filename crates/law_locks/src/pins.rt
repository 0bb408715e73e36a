//! What a transaction has found or not found stays so while records come and go, as long as its own rollback does not come
//! before the search.

ghost use Rattle.std.specs.Prelude.{◌≡◌, ◌≢◌, ℕ, ◌≤◌, true, Some, List, ◌∷◌, length};
ghost use Rattle.std.specs.List.{AllByRecursion};
ghost use Rattle.inno_types.specs.declared.lock.Spot.{Spot};
ghost use Rattle.inno_types.specs.declared.lock.Lock.{Lock};
ghost use Rattle.store_api.specs.declared.answers.Undo.{Undo};
ghost use Rattle.lock_rules.specs.Coverage.{without_record};
ghost use Rattle.lock_rules.specs.Rules.{FitsItsRule};
ghost use Rattle.lock_table.specs.Queue.{AreApart};
ghost use Rattle.lock_table.specs.Records.{after_removal};
ghost use Rattle.law_locks.specs.Guards.{Guarded, has_alone, is_creation};
ghost use Rattle.law_locks.specs.Stand.{Inserts, Removes};

/// When a record is inserted, each transaction keeps what it has guarded, and the inserter does with the insertion in its log.
pub fn insertions_keep_what_is_guarded()
    ensures others { (txn inserter : ℕ) (records : List (List ℕ)) (new_key key : List ℕ) (new next : Spot) (old locks : List Lock) (made : ℕ) (log : List Undo)
        → Inserts inserter records new_key new next old locks
        → Guarded txn new.index records old key made log
        → Guarded txn new.index (new_key ∷ records) locks key made log }
    ensures own { (txn : ℕ) (records : List (List ℕ)) (new_key key : List ℕ) (new next : Spot) (old locks : List Lock) (made : ℕ) (undo : Undo) (log : List Undo)
        → Inserts txn records new_key new next old locks
        → undo.key ≡ new_key → made ≤ length log
        → Guarded txn new.index records old key made log
        → Guarded txn new.index (new_key ∷ records) locks key made (undo ∷ log) }
{}

/// When a transaction changes a record that stands, it keeps what it has guarded, and also when it takes that change back.
pub fn changes_keep_what_is_guarded()
    ensures made { (txn index : ℕ) (records : List (List ℕ)) (locks : List Lock) (key : List ℕ) (made : ℕ) (undo : Undo) (log : List Undo)
        → undo.kind ≡ 2 → made ≤ length log
        → Guarded txn index records locks key made log
        → Guarded txn index records locks key made (undo ∷ log) }
    ensures back { (txn index : ℕ) (records : List (List ℕ)) (locks : List Lock) (key : List ℕ) (made : ℕ) (undo : Undo) (log : List Undo)
        → made ≤ length log
        → Guarded txn index records locks key made (undo ∷ log)
        → Guarded txn index records locks key made log }
{}

/// When a transaction takes its own insertion back, it keeps what it has guarded before its search, or since. Only a rollback
/// to before the search takes away a record that the search has found.
pub fn own_removals_keep_what_is_guarded()
    ensures { (txn : ℕ) (records : List (List ℕ)) (gone_key key : List ℕ) (gone next : Spot) (granted waiting : List Lock) (made : ℕ) (undo : Undo) (log : List Undo)
        → Removes records gone_key gone next → AllByRecursion FitsItsRule granted
        → is_creation gone.index gone_key undo ≡ true → made ≤ length log
        → Guarded txn gone.index records granted key made (undo ∷ log)
        → Guarded txn gone.index (without_record gone_key records) (after_removal (Some txn) gone next granted waiting).granted key made log }
{}

/// When another takes its insertion back, of which it has the record alone, each transaction keeps what it has guarded.
pub fn removals_of_others_keep_what_is_guarded()
    ensures { (txn other : ℕ) (records : List (List ℕ)) (gone_key key : List ℕ) (gone next : Spot) (granted waiting : List Lock) (made : ℕ) (log : List Undo)
        → txn ≢ other → AreApart granted → has_alone other gone.index gone_key granted ≡ true
        → Removes records gone_key gone next → AllByRecursion FitsItsRule granted
        → Guarded txn gone.index records granted key made log
        → Guarded txn gone.index (without_record gone_key records) (after_removal (Some other) gone next granted waiting).granted key made log }
{}
