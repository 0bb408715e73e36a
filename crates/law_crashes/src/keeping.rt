//! Laws: each entry of a history and each call of the log keeps what the log and the disk stand for.
//! Nothing calls them; `commit_log` cites the lemmas behind them (proofs/Durable.antt).

ghost use Rattle.std.specs.Prelude.{◌≡◌, ◌+◌, ◌≤◌, ℕ, true, false, List, [], ◌∷◌, ◌++◌};
ghost use Rattle.store_api.specs.Areas.{Contents};
ghost use Rattle.store_api.specs.Past.{Past, Now, Meanwhile};
ghost use Rattle.inno_model.specs.declared.event.Event.{Event};
ghost use Rattle.inno_model.specs.declared.event.Event.TheVariants.{Committed, Acked};
ghost use Rattle.inno_model.specs.Past.{own};
ghost use Rattle.log_format.specs.declared.group.Group.{Group as GroupValue};
ghost use Rattle.log_format.specs.declared.group.Record.{Record as RecordValue};
ghost use Rattle.redo_log.specs.View.{LogView};
ghost use Rattle.redo_log.specs.Logged.{IsLogged, Stands, StandsMeanwhile};
ghost use Rattle.law_crashes.specs.Records.{records_of};
ghost use Rattle.law_crashes.specs.Commits.{is_none, leaves_log};
ghost use Rattle.law_crashes.specs.Since.{IsDurable};

/// An entry that is no commit and no acknowledgement leaves the log as it is.
pub fn an_entry_leaves_the_log()
    ensures { (e : Event) (root now : Past) (past : List Event) (log : LogView) (due : ℕ → ℕ) → leaves_log e ≡ true
        → IsDurable root now past log due → IsDurable root now (e ∷ past) log due }
{}

/// A commit may be acknowledged at this moment once the log is flushed as far as the session's last commit needs it.
pub fn an_acknowledgement_waits_for_the_log()
    ensures { (root now : Past) (past : List Event) (log : LogView) (due : ℕ → ℕ) (s moment : ℕ)
        → IsDurable root now past log due → moment ≡ now.moment → due s ≤ log.flushed
        → IsDurable root now (Acked s moment ∷ past) log due }
{}

/// A flush leaves every commit that the log held, at each moment of it.
pub fn a_flush_keeps_every_commit()
    ensures { (root now next : Past) (past : List Event) (log new : LogView) (due : ℕ → ℕ)
        → IsDurable root now past log due → new.run ≡ log.run → new.next ≡ log.next → log.flushed ≤ new.flushed
        → ((first : ℕ) (groups : List GroupValue) (double pages : Contents) → Now (Stands first groups log double pages) now → Now (Stands first groups new double pages) next)
        → ((first : ℕ) (groups : List GroupValue) (double pages : Contents) → Now (Stands first groups log double pages) now → Meanwhile (StandsMeanwhile log.run first groups log.flushed double pages) now next)
        → IsDurable root next past new due }
{}

/// A commit that changed nothing needs what was logged before it, and no group of its own.
pub fn a_commit_without_changes_needs_no_group()
    ensures { (root now : Past) (past : List Event) (log : LogView) (due later : ℕ → ℕ) (s : ℕ)
        → IsDurable root now past log due → is_none (own s past) ≡ true → log.next ≤ later s + 1
        → ((u : ℕ) → due u ≤ later u) → IsDurable root now (Committed s ∷ past) log later }
{}

/// A commit whose changes were appended as one group.
pub fn a_commit_is_logged()
    ensures { (root now : Past) (past : List Event) (log new : LogView) (due later : ℕ → ℕ) (s : ℕ) (records : List RecordValue)
        → IsDurable root now past log due → is_none (own s past) ≡ false → records ≡ records_of (own s past)
        → new.run ≡ log.run → new.flushed ≡ log.flushed → new.next ≡ log.next + 1 → log.next ≤ later s
        → ((u : ℕ) → due u ≤ later u)
        → ((first : ℕ) (groups : List GroupValue) (c : Contents) → IsLogged first groups log c
        → IsLogged first (groups ++ record { lsn = log.next; records = records } ∷ []) new c)
        → IsDurable root now (Committed s ∷ past) new later }
{}
