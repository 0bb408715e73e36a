//! What an appended record leaves on its page, where it stands, and so does each record before it; and who is open once a log is.
//! No code stands here.

ghost use Rattle.std.specs.Prelude.{◌≡◌, ◌≢◌, ℕ, ◌+◌, ◌^◌, ◌<◌, ◌≤◌, ◌==◌, ◌&&◌, ◌||◌, not, List, length, IsTrue};
ghost use Rattle.store_api.specs.declared.limits.TheConstants.{MOST_SESSIONS};
ghost use Rattle.mtr.specs.Seen.{MtrState};
ghost use Rattle.undo_log.specs.declared.record.Undone.{Undone as UndoneValue};
ghost use Rattle.undo_log.specs.declared.layout.TheConstants.{FIRST_RECORD};
ghost use Rattle.undo_log.specs.Records.{record_bytes, record_length, HasValue, StandsAt};
ghost use Rattle.undo_log.specs.Appending.{Appends};
ghost use Rattle.undo_log.specs.Slots.{id_in, open_on, Opens, IsNewLog, Closes, IsOnlySlot};

/// A record that was appended stands at its place, and can be read back there.
pub fn an_appended_record_stands()
    ensures { (page at table : ℕ) (undone : UndoneValue) (key value : List ℕ) (old new : MtrState)
        → Appends page at (record_bytes undone table key value) old new → HasValue undone value → IsTrue new.told
        → StandsAt (new.seen page) at undone table key value }
{}

/// Each record that stood before it stands still.
pub fn earlier_records_stay()
    ensures { (page at : ℕ) (bytes : List ℕ) (old new : MtrState) → Appends page at bytes old new → IsTrue new.told
        → (place table : ℕ) (undone : UndoneValue) (key value : List ℕ) → FIRST_RECORD ≤ place → place + record_length key value ≤ at
        → StandsAt (old.seen page) place undone table key value → StandsAt (new.seen page) place undone table key value }
{}

/// Once a log is opened, its transaction is open, and of the others those that were. A slot that is free is nobody's, so
/// none is lost.
pub fn an_opened_log_is_open()
    ensures { (slot id page : ℕ) (old new : MtrState) → Opens slot id page old new → IsTrue new.told → IsNewLog page old.seen
        → id ≢ 0 → id < 2 ^ 64 → page < 2 ^ 32 → page ≢ 1 → (other : ℕ) → open_on new.seen other ≡ (other == id || open_on old.seen other) }
{}

/// Once a slot is freed, its transaction is open no more, and the others are as they were.
pub fn a_closed_log_is_open_no_more()
    ensures { (slot : ℕ) (old new : MtrState) → Closes slot old new → IsTrue new.told → slot < MOST_SESSIONS → IsOnlySlot slot old.seen
        → (other : ℕ) → open_on new.seen other ≡ (not (other == id_in old.seen slot) && open_on old.seen other) }
{}
