//! Laws of isolation. Histories are calm where each statement sees the latest committed rows and its session's own, and no commit of
//! another meets what an open transaction has searched or changed: they answer as their transactions do alone. So are those in which
//! the sessions take turns (`serial`), and those at SERIALIZABLE that are free of phantoms (`phantom_free`). What stands of a transaction's
//! work is told entry by entry (`standing_work`), and what a search finds that reads each row at a moment of its own (`loose_readings`).
//! Each function has an empty body: its contract is the law. Nothing calls them.
#![tactic(auto)]

mod loose_readings;
mod phantom_free;
mod serial;
mod standing_work;

ghost use Rattle.std.specs.Prelude.{ℕ, List};
ghost use Rattle.inno_db.specs.declared.change.Change.{Change};
ghost use Rattle.inno_db.specs.Database.{Database};
ghost use Rattle.inno_model.specs.declared.event.Event.{Event};
ghost use Rattle.inno_model.specs.Past.{changed};
ghost use Rattle.sql_grammar.specs.Grammar.{Spells};
ghost use Rattle.sql_history.specs.declared.settings.Save.{Save};
ghost use Rattle.sql_history.specs.Legal.{IsLegal};
ghost use Rattle.sql_history.specs.Serial.{Piece, AnswersAsAlone};
ghost use Rattle.law_db.specs.Beside.{AreApart, AreOfRows};
ghost use Rattle.law_histories.specs.Work.{Tracks};
ghost use Rattle.law_isolation.specs.Pieces.{AreAnswered, AreBeside};
ghost use Rattle.law_isolation.specs.Calm.{IsCalm, AreCalm};
ghost use Rattle.law_isolation.specs.Work.{HasWork};

pub use loose_readings::held_rows_are_a_loose_reading;
pub use phantom_free::{
    a_setup_comes_first, a_setup_must_have_ended, locked_searches_meet_no_phantoms,
    open_transactions_stay_apart, phantom_free_histories_answer_as_alone,
    phantom_free_histories_are_calm, serial_histories_are_free_of_phantoms,
    sessions_may_interleave,
};
pub use serial::{
    a_serial_history_answers_as_alone, a_session_alone_answers_as_alone, serial_histories_are_calm,
    sessions_may_take_turns,
};
pub use standing_work::what_stands_stood_before;

/// Work that another's changes are beside goes with its own changes over the rows with these, too.
pub fn work_goes_on_beside_a_commit()
    ensures { (db : Database) (others : List Change) (pieces : List Piece) (saves : List Save) (own : List Change) → AreOfRows others → AreOfRows own → AreApart db.schemas own others
        → AreAnswered pieces → AreBeside pieces db others → Tracks db pieces saves own → Tracks (changed db others) pieces saves own }
{}

/// In a legal history what stands of a calm session's work goes with its changes, at each moment: amid an item, amid a
/// rollback, and behind others' commits.
pub fn standing_work_is_carried()
    ensures { (past : List Event) → IsLegal Spells past → AreCalm Spells past → (s : ℕ) → IsCalm Spells s past → HasWork Spells s past }
{}

/// A legal and calm history answers as its committed transactions do alone, in the order of their commits.
pub fn a_calm_history_answers_as_alone()
    ensures { (past : List Event) → IsLegal Spells past → AreCalm Spells past → AnswersAsAlone Spells past }
{}
