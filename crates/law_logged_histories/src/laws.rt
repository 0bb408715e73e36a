//! Laws: the log can make each table of a legal history, and each change that it tells has a record. They speak of moments at
//! which no open transaction has made a table: while its item is under way, legality does not say yet which table it makes.

ghost use Rattle.std.specs.Prelude.{◌≤◌, List, length, All};
ghost use Rattle.std.specs.List.{AllByRecursion};
ghost use Rattle.inno_db.specs.declared.limits.TheConstants.{MOST_TABLES};
ghost use Rattle.inno_model.specs.declared.event.Event.{Event};
ghost use Rattle.inno_model.specs.Past.{opening};
ghost use Rattle.sql_grammar.specs.Grammar.{Spells};
ghost use Rattle.sql_history.specs.Legal.{IsLegal};
ghost use Rattle.law_past_agreement.specs.Order.{created, IsOrdered};
ghost use Rattle.shared_lists.specs.Fitting.{FitsThen};
ghost use Rattle.commit_log.specs.Room.{IsLoggable};
ghost use Rattle.law_logged_histories.specs.Creations.{HasNoOpenCreation};
ghost use Rattle.law_logged_histories.specs.Records.{HasItsRecord};

/// Where the log could make the tables of the opening, it can make each that was made since.
pub fn each_table_can_be_logged()
    ensures { (past : List Event) → IsLegal Spells past → IsOrdered past → HasNoOpenCreation past → All IsLoggable (opening past).schemas
        → All IsLoggable (created past) }
{}

/// So each change has a record, where each fitted its tables when it was made.
pub fn each_change_has_a_record()
    ensures { (past : List Event) → IsLegal Spells past → IsOrdered past → HasNoOpenCreation past → FitsThen past
        → length (created past) ≤ MOST_TABLES → All IsLoggable (opening past).schemas → AllByRecursion HasItsRecord past }
{}
