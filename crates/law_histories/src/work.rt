//! Laws of what an open transaction has done: its statements with their replies, its savepoints and its changes.
//! The function has an empty body: its contract is the law.

ghost use Rattle.std.specs.Prelude.{◌≡◌, List};
ghost use Rattle.inno_db.specs.declared.change.Change.{Change};
ghost use Rattle.inno_db.specs.Database.{Database};
ghost use Rattle.inno_model.specs.Past.{changed};
ghost use Rattle.sql_history.specs.declared.settings.Save.{Save};
ghost use Rattle.sql_history.specs.Serial.{Piece, after_work, WorkAnswers};
ghost use Rattle.law_histories.specs.Work.{Tracks};

/// Work that goes with its changes answers alone as it did, and leaves the database that its changes make.
pub fn work_answers_alone()
    ensures answers { (db : Database) (pieces : List Piece) (saves : List Save) (own : List Change) → Tracks db pieces saves own → WorkAnswers db pieces }
    ensures leaves { (db : Database) (pieces : List Piece) (saves : List Save) (own : List Change) → Tracks db pieces saves own → after_work db pieces ≡ changed db own }
{}
