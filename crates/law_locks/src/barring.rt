//! No row that another has changed lies in the range that a transaction keeps, neither as it was before nor behind a
//! change. Which rows and ranges are meant is told by `Owns`, `KeepsRow` and `KeepsRange` (specs/Barring.antt). Which keys may
//! stand in an index is a test here, since a clause can't speak of all relations; proofs/Outside.antt has the law for each.

ghost use Rattle.std.specs.Prelude.{◌≡◌, ◌≢◌, ℕ, Bool, true, Some, List, Contains};
ghost use Rattle.inno_types.specs.declared.lock.Lock.{Lock};
ghost use Rattle.inno_types.specs.declared.stmt.Range.{Range};
ghost use Rattle.store_api.specs.declared.answers.Undo.{Undo};
ghost use Rattle.lock_rules.specs.Ranges.{is_within};
ghost use Rattle.lock_table.specs.Queue.{AreApart};
ghost use Rattle.law_locks.specs.Barring.{ChangedRow, Owns, KeepsRange, KeepsRow};

/// The row before the other's first change lies outside.
pub fn rows_before_lie_outside()
    ensures { (txn other clustered index : ℕ) (records : List (List ℕ)) (granted : List Lock) (range : Range) (row : ChangedRow) (entry : List ℕ)
        → txn ≢ other → AreApart granted → Owns other clustered index records granted row
        → KeepsRow txn clustered granted range row
        → row.before ≡ Some entry → is_within range (Some entry) ≡ true → ⊥ }
{}

/// So does the row behind each of its changes, where its key is one that may stand in the index.
pub fn rows_behind_lie_outside()
    ensures { (txn other clustered index : ℕ) (records : List (List ℕ)) (granted : List Lock) (range : Range) (may : List ℕ → Bool) (made : ℕ) (log : List Undo) (row : ChangedRow) (entry : List ℕ)
        → txn ≢ other → AreApart granted → Owns other clustered index records granted row
        → KeepsRow txn clustered granted range row → KeepsRange (λ key. may key ≡ true) txn index records granted range made log
        → may entry ≡ true → Contains row.behind (Some entry) → is_within range (Some entry) ≡ true → ⊥ }
{}
