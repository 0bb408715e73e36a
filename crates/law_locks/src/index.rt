//! What is guarded in an index stays so as a pair is put, replaced or removed, with the calls of the lock table that go with it.
//! Each function has an empty body: its contract is the law. No engine takes such locks yet.

ghost use Rattle.std.specs.Prelude.{◌≡◌, ◌≢◌, ℕ, true, Option, Some, is_some, List, ◌∷◌, length};
ghost use Rattle.std.specs.List.{AllByRecursion};
ghost use Rattle.inno_types.specs.declared.lock.Lock.{Lock};
ghost use Rattle.store_api.specs.declared.answers.Undo.{Undo};
ghost use Rattle.entries.specs.Pairs.{Pair, AreRising, value_of, with_pair, without_key};
ghost use Rattle.lock_rules.specs.Rules.{FitsItsRule};
ghost use Rattle.lock_table.specs.Queue.{AreApart};
ghost use Rattle.lock_table.specs.Records.{after_removal};
ghost use Rattle.lock_table.specs.View.{Table};
ghost use Rattle.law_locks.specs.Guards.{Guards, Guarded, has_alone, is_creation};
ghost use Rattle.law_locks.specs.Index.{keys_of, spot_at, next_spot, InsertsIn, StandsIn};

/// A pair of a new key is put: its intention is granted in this step.
pub fn pairs_that_are_put_keep_guards()
    ensures guards { (txn other index : ℕ) (pairs : List Pair) (key value guarded : List ℕ) (intention own : Lock) (old last : Table)
        → InsertsIn txn index pairs key intention own old last
        → Guards other index (keys_of pairs) old.granted guarded → Guards other index (keys_of (with_pair key value pairs)) last.granted guarded }
    ensures guarded { (txn other index : ℕ) (pairs : List Pair) (key value guarded : List ℕ) (intention own : Lock) (old last : Table) (made : ℕ) (log : List Undo)
        → InsertsIn txn index pairs key intention own old last
        → Guarded other index (keys_of pairs) old.granted guarded made log → Guarded other index (keys_of (with_pair key value pairs)) last.granted guarded made log }
    ensures nobody { (txn other index : ℕ) (pairs : List Pair) (key : List ℕ) (intention own : Lock) (old last : Table)
        → other ≢ txn → InsertsIn txn index pairs key intention own old last
        → Guards other index (keys_of pairs) old.granted key → ⊥ }
    ensures alone { (txn index : ℕ) (pairs : List Pair) (key : List ℕ) (intention own : Lock) (old last : Table)
        → InsertsIn txn index pairs key intention own old last → has_alone txn index key last.granted ≡ true }
{}

/// The value of a pair is replaced: no lock is asked for, and no spot changes.
pub fn values_that_are_replaced_keep_guards()
    ensures { (other index : ℕ) (pairs : List Pair) (key value guarded : List ℕ) (locks : List Lock) (made : ℕ) (log : List Undo)
        → StandsIn pairs key
        → Guarded other index (keys_of pairs) locks guarded made log → Guarded other index (keys_of (with_pair key value pairs)) locks guarded made log }
{}

/// A pair is removed by one that has it alone, with the call of the lock table that moves its locks.
pub fn pairs_that_are_removed_keep_guards()
    ensures guards { (other index : ℕ) (by : Option ℕ) (pairs : List Pair) (key guarded : List ℕ) (granted waiting : List Lock)
        → StandsIn pairs key → AllByRecursion FitsItsRule granted
        → Guards other index (keys_of pairs) granted guarded
        → Guards other index (keys_of (without_key key pairs)) (after_removal by (spot_at index key) (next_spot index key pairs) granted waiting).granted guarded }
    ensures guarded { (other txn index : ℕ) (pairs : List Pair) (key guarded : List ℕ) (granted waiting : List Lock) (made : ℕ) (log : List Undo)
        → other ≢ txn → AreApart granted → has_alone txn index key granted ≡ true
        → StandsIn pairs key → AllByRecursion FitsItsRule granted
        → Guarded other index (keys_of pairs) granted guarded made log
        → Guarded other index (keys_of (without_key key pairs)) (after_removal (Some txn) (spot_at index key) (next_spot index key pairs) granted waiting).granted guarded made log }
{}
