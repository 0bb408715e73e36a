//! A search that locks: each of its steps, from what is held of all sessions and what it knew, to what it knows behind.
//! Each function has an empty body: its contract is the law. What it knows is `IsLocking` and `IsAtEntry`.

ghost use Rattle.std.specs.Prelude.{◌≡◌, ◌≢◌, ℕ, ◌+◌, ◌≤◌, true, false, List, [], ◌∷◌, ◌++◌, length, Option, None, Some, slice_get};
ghost use Rattle.std.specs.declared.vec.Vec.{Vec};
ghost use Rattle.std.specs.declared.alloc.Global.{Global};
ghost use Rattle.inno_types.specs.declared.lock.Lock.{Lock};
ghost use Rattle.inno_types.specs.declared.value.Schema.{Schema};
ghost use Rattle.inno_types.specs.declared.value.Key.{Key};
ghost use Rattle.inno_types.specs.declared.stmt.Bound.TheVariants.{With};
ghost use Rattle.inno_types.specs.Ranges.{is_within, is_up_to};
ghost use Rattle.inno_db.specs.Indexes.{index_of};
ghost use Rattle.store_api.specs.declared.answers.Undo.{Undo};
ghost use Rattle.store_api.specs.declared.answers.Version.{Version as Coded};
ghost use Rattle.key_codec.specs.Keys.{key_width};
ghost use Rattle.entries.specs.Pairs.{Pair, value_of, IsFirstOf, NonePasses};
ghost use Rattle.law_stored_rows.specs.Edits.{clustered_index};
ghost use Rattle.law_stored_rows.specs.Records.{IsCodeOf};
ghost use Rattle.sql_plan.specs.Visits.{index_key, kind_at};
ghost use Rattle.world.specs.State.{WorldState, Work};
ghost use Rattle.world.specs.Told.{pairs_of};
ghost use Rattle.lock_rules.specs.Kinds.{locks_gap, locks_record};
ghost use Rattle.lock_rules.specs.Conflicts.{kind_of};
ghost use Rattle.lock_table.specs.View.{Table};
ghost use Rattle.row_search.specs.declared.scan.Scan.{Scan};
ghost use Rattle.row_search.specs.declared.found.FoundRow.{FoundRow};
ghost use Rattle.row_search.specs.Ranges.{primary_part};
ghost use Rattle.desks.specs.Desks.{Store};
ghost use Rattle.law_locked_rows.specs.Many.{IsHeldByAll};
ghost use Rattle.law_locked_rows.specs.Locking.{to_come, IsLocking, IsAtEntry};
ghost use Rattle.law_locked_rows.specs.Entries.{AreEntriesOwned};
ghost use Rattle.law_locked_rows.specs.Searching.{LocksFor, LocksNext, LocksRecordOf};

/// Before its first step it has come past no key.
pub fn a_search_begins()
    ensures { (schema : Schema) (scan : Scan) (s txn made : ℕ) (log : List Undo) (state : WorldState) (granted : List Lock) → scan.rows.items ≡ []
        → IsLocking schema scan s txn made log (to_come scan None) state granted }
{}

/// It comes to the next key in its range with a lock of the record and of the gap before it.
pub fn a_search_comes_to_the_next_key()
    ensures { (store : Store) (old new : Table) (held : IsHeldByAll store old.granted) (s : ℕ) (work : Work) (schema : Schema) (scan : Scan) (lock : Lock) (made : ℕ) (log : List Undo) (passed : Option (List ℕ)) (pair : Pair)
        → LocksFor store old new s work schema scan lock → IsLocking schema scan s work.txn made log (to_come scan passed) store.world old.granted
        → LocksNext store scan lock passed pair → IsAtEntry schema scan s work.txn made log pair.0 store.world new.granted }
{}

/// In the clustered index that pair is the row's record, and the step is over with it: a marked one and one of another key are passed, and the row of
/// one that stands is found.
pub fn a_record_is_passed_or_found()
    ensures marked { (store : Store) (old new : Table) (held : IsHeldByAll store old.granted) (s : ℕ) (work : Work) (schema : Schema) (scan : Scan) (lock : Lock) (made : ℕ) (log : List Undo) (passed : Option (List ℕ)) (pair : Pair) (coded : Coded)
        → LocksFor store old new s work schema scan lock → IsLocking schema scan s work.txn made log (to_come scan passed) store.world old.granted
        → LocksNext store scan lock passed pair → scan.which ≡ 0 → IsCodeOf schema (primary_part schema pair.0) pair.1 coded → coded.marked ≡ true
        → IsLocking schema scan s work.txn made log (to_come scan (Some pair.0)) store.world new.granted }
    ensures other { (store : Store) (old new : Table) (held : IsHeldByAll store old.granted) (s : ℕ) (work : Work) (schema : Schema) (scan : Scan) (lock : Lock) (made : ℕ) (log : List Undo) (passed : Option (List ℕ)) (pair : Pair) (coded : Coded)
        → LocksFor store old new s work schema scan lock → IsLocking schema scan s work.txn made log (to_come scan passed) store.world old.granted
        → LocksNext store scan lock passed pair → scan.which ≡ 0 → IsCodeOf schema (primary_part schema pair.0) pair.1 coded → coded.marked ≡ false
        → index_key schema scan.which coded.row ≢ pair.0
        → IsLocking schema scan s work.txn made log (to_come scan (Some pair.0)) store.world new.granted }
    ensures found { (store : Store) (old new : Table) (held : IsHeldByAll store old.granted) (s : ℕ) (work : Work) (schema : Schema) (scan : Scan) (lock : Lock) (made : ℕ) (log : List Undo) (passed : Option (List ℕ)) (pair : Pair) (coded : Coded) (rows : Vec FoundRow Global)
        → LocksFor store old new s work schema scan lock → IsLocking schema scan s work.txn made log (to_come scan passed) store.world old.granted
        → LocksNext store scan lock passed pair → scan.which ≡ 0 → IsCodeOf schema (primary_part schema pair.0) pair.1 coded → coded.marked ≡ false
        → index_key schema scan.which coded.row ≡ pair.0 → rows.items ≡ scan.rows.items ++ record { key = primary_part schema pair.0; row = coded.row } ∷ []
        → IsLocking schema (record scan { rows = rows }) s work.txn made log (to_come scan (Some pair.0)) store.world new.granted }
{}

/// A marked entry of a key is passed at once, without a look at its record.
pub fn a_marked_entry_is_passed()
    ensures { (store : Store) (old new : Table) (held : IsHeldByAll store old.granted) (s : ℕ) (work : Work) (schema : Schema) (scan : Scan) (lock : Lock) (made : ℕ) (log : List Undo) (passed : Option (List ℕ)) (pair : Pair) (at : ℕ) (key : Key)
        → AreEntriesOwned held.chains held.rows.said store.world old.granted
        → LocksFor store old new s work schema scan lock → IsLocking schema scan s work.txn made log (to_come scan passed) store.world old.granted
        → LocksNext store scan lock passed pair → scan.which ≡ 1 + at → slice_get schema.keys at ≡ Some key → pair.1 ≡ 1 ∷ []
        → IsLocking schema scan s work.txn made log (to_come scan (Some pair.0)) store.world new.granted }
{}

/// The record of another entry is locked in a step of its own: where there is none, where it is marked and where its row has another entry the search
/// passes, and else the row is found.
pub fn the_record_of_an_entry_is_passed_or_found()
    ensures absent { (store : Store) (old new : Table) (held : IsHeldByAll store old.granted) (s : ℕ) (work : Work) (schema : Schema) (scan : Scan) (lock : Lock) (made : ℕ) (log : List Undo) (entry : List ℕ)
        → LocksFor store old new s work schema scan lock → IsAtEntry schema scan s work.txn made log entry store.world old.granted
        → LocksRecordOf schema scan lock entry → value_of (primary_part schema entry) (pairs_of store.world (clustered_index scan.table)) ≡ None
        → IsLocking schema scan s work.txn made log (to_come scan (Some entry)) store.world new.granted }
    ensures marked { (store : Store) (old new : Table) (held : IsHeldByAll store old.granted) (s : ℕ) (work : Work) (schema : Schema) (scan : Scan) (lock : Lock) (made : ℕ) (log : List Undo) (entry bytes : List ℕ) (coded : Coded)
        → LocksFor store old new s work schema scan lock → IsAtEntry schema scan s work.txn made log entry store.world old.granted
        → LocksRecordOf schema scan lock entry → value_of (primary_part schema entry) (pairs_of store.world (clustered_index scan.table)) ≡ Some bytes
        → IsCodeOf schema (primary_part schema entry) bytes coded → coded.marked ≡ true
        → IsLocking schema scan s work.txn made log (to_come scan (Some entry)) store.world new.granted }
    ensures other { (store : Store) (old new : Table) (held : IsHeldByAll store old.granted) (s : ℕ) (work : Work) (schema : Schema) (scan : Scan) (lock : Lock) (made : ℕ) (log : List Undo) (entry bytes : List ℕ) (coded : Coded)
        → LocksFor store old new s work schema scan lock → IsAtEntry schema scan s work.txn made log entry store.world old.granted
        → LocksRecordOf schema scan lock entry → value_of (primary_part schema entry) (pairs_of store.world (clustered_index scan.table)) ≡ Some bytes
        → IsCodeOf schema (primary_part schema entry) bytes coded → coded.marked ≡ false → index_key schema scan.which coded.row ≢ entry
        → IsLocking schema scan s work.txn made log (to_come scan (Some entry)) store.world new.granted }
    ensures found { (store : Store) (old new : Table) (held : IsHeldByAll store old.granted) (s : ℕ) (work : Work) (schema : Schema) (scan : Scan) (lock : Lock) (made : ℕ) (log : List Undo) (entry bytes : List ℕ) (coded : Coded) (rows : Vec FoundRow Global)
        → LocksFor store old new s work schema scan lock → IsAtEntry schema scan s work.txn made log entry store.world old.granted
        → LocksRecordOf schema scan lock entry → value_of (primary_part schema entry) (pairs_of store.world (clustered_index scan.table)) ≡ Some bytes
        → IsCodeOf schema (primary_part schema entry) bytes coded → coded.marked ≡ false → index_key schema scan.which coded.row ≡ entry
        → rows.items ≡ scan.rows.items ++ record { key = primary_part schema entry; row = coded.row } ∷ []
        → IsLocking schema (record scan { rows = rows }) s work.txn made log (to_come scan (Some entry)) store.world new.granted }
{}

/// Where both bounds are one key, as long as keys of the clustered index, the lock of its record alone is enough.
pub fn a_search_for_one_key_locks_its_record()
    ensures { (store : Store) (old new : Table) (held : IsHeldByAll store old.granted) (s : ℕ) (work : Work) (schema : Schema) (scan : Scan) (lock : Lock) (log : List Undo) (passed : Option (List ℕ)) (pair : Pair) (bound : List ℕ)
        → LocksFor store old new s work schema scan lock → IsLocking schema scan s work.txn (length log) log (to_come scan passed) store.world old.granted
        → lock.spot.index ≡ index_of scan.table scan.which
        → IsFirstOf (to_come scan passed) (pairs_of store.world (index_of scan.table scan.which)) pair → is_within scan.range pair.0 ≡ true
        → lock.spot.key ≡ Some pair.0 → locks_record (kind_of lock) ≡ true → scan.which ≡ 0 → scan.range.low ≡ With bound → scan.range.high ≡ With bound
        → key_width (kind_at schema.columns schema.primary) ≤ length bound → IsAtEntry schema scan s work.txn (length log) log pair.0 store.world new.granted }
{}

/// Behind its range a search is over, with a lock of the gap before the first record there, or before the supremum.
pub fn a_search_is_over_behind_its_range()
    ensures record_there { (store : Store) (old new : Table) (held : IsHeldByAll store old.granted) (s : ℕ) (work : Work) (schema : Schema) (scan : Scan) (lock : Lock) (made : ℕ) (log : List Undo) (passed : Option (List ℕ)) (pair : Pair)
        → LocksFor store old new s work schema scan lock → IsLocking schema scan s work.txn made log (to_come scan passed) store.world old.granted
        → lock.spot.index ≡ index_of scan.table scan.which
        → IsFirstOf (to_come scan passed) (pairs_of store.world (index_of scan.table scan.which)) pair → is_up_to scan.range.high pair.0 ≡ false
        → lock.spot.key ≡ Some pair.0 → locks_gap (kind_of lock) ≡ true → IsLocking schema scan s work.txn made log (λ key. false) store.world new.granted }
    ensures supremum { (store : Store) (old new : Table) (held : IsHeldByAll store old.granted) (s : ℕ) (work : Work) (schema : Schema) (scan : Scan) (lock : Lock) (made : ℕ) (log : List Undo) (passed : Option (List ℕ))
        → LocksFor store old new s work schema scan lock → IsLocking schema scan s work.txn made log (to_come scan passed) store.world old.granted
        → lock.spot.index ≡ index_of scan.table scan.which
        → NonePasses (to_come scan passed) (pairs_of store.world (index_of scan.table scan.which))
        → lock.spot.key ≡ None → locks_gap (kind_of lock) ≡ true → IsLocking schema scan s work.txn made log (λ key. false) store.world new.granted }
{}
