//! Laws of serial histories, in which the sessions take turns: they answer as their transactions do alone.
//! Each function has an empty body: its contract is the law. Nothing calls them; they show that the definitions say what
//! a user of a database expects.

ghost use Rattle.std.specs.Prelude.{ℕ, List};
ghost use Rattle.inno_model.specs.declared.event.Event.{Event};
ghost use Rattle.sql_grammar.specs.Grammar.{Spells};
ghost use Rattle.sql_history.specs.Legal.{IsLegal};
ghost use Rattle.sql_history.specs.Serial.{AnswersAsAlone};
ghost use Rattle.law_isolation.specs.Calm.{IsCalm};
ghost use Rattle.law_isolation.specs.Turns.{IsSerial, IsOfOne};
ghost use Rattle.law_isolation.specs.SerialExample.{put_and_read};

/// Where the sessions take turns, each is calm: it sees the latest rows, and nobody commits beside it.
pub fn serial_histories_are_calm()
    ensures { (past : List Event) → IsLegal Spells past → IsSerial past → (s : ℕ) → IsCalm Spells s past }
{}

/// Where the sessions take turns, each reply that was committed is what its transaction answers alone, in the order of
/// the commits, and so is the database in the end. This holds at each level, with and without autocommit, and with
/// rollbacks, savepoints and statements that were refused or broken off.
pub fn a_serial_history_answers_as_alone()
    ensures { (past : List Event) → IsLegal Spells past → IsSerial past → AnswersAsAlone Spells past }
{}

/// A session that nobody else is beside answers so.
pub fn a_session_alone_answers_as_alone()
    ensures { (s : ℕ) (past : List Event) → IsLegal Spells past → IsOfOne s past → AnswersAsAlone Spells past }
{}

/// Such histories are there: one session puts a row, and another, whose turn comes next, is answered it.
pub fn sessions_may_take_turns()
    ensures legal { IsLegal Spells put_and_read }
    ensures serial { IsSerial put_and_read }
{}
