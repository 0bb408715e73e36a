//! Laws of searches that read and hold each row at a moment of their own, as below REPEATABLE READ.
//! Each function has an empty body: its contract is the law.

ghost use Rattle.std.specs.Prelude.{◌≡◌, ◌≢◌, ℕ, Bool, List, [], Option, Some, filter, slice_get};
ghost use Rattle.inno_types.specs.declared.value.Value.{Value};
ghost use Rattle.inno_types.specs.declared.value.Schema.{Schema};
ghost use Rattle.inno_types.specs.declared.stmt.Filter.{Filter};
ghost use Rattle.inno_types.specs.declared.stmt.Stmt.{Stmt};
ghost use Rattle.inno_db.specs.Database.{Database, rows_of};
ghost use Rattle.inno_db.specs.Names.{table_place};
ghost use Rattle.inno_db.specs.Conditions.{matches};
ghost use Rattle.inno_db.specs.Keyed.{IsKeyed};
ghost use Rattle.inno_model.specs.declared.event.Event.{Event};
ghost use Rattle.sql_history.specs.Items.{base};
ghost use Rattle.sql_history.specs.Statements.{Sight};
ghost use Rattle.sql_history.specs.Answers.{MaySee};
ghost use Rattle.law_isolation.specs.Searching.{Searches, without_missed, HasFoundStill};

/// Below REPEATABLE READ a statement that locks what it searches may act on the latest committed rows, without those that
/// match and that its search missed: where it found each that stood still, and has held what it found since.
pub fn held_rows_are_a_loose_reading()
    ensures reading { (statement : Stmt) (name : List ℕ) (condition : Option Filter) (table : ℕ) (schema : Schema) (found : List Value → Bool) (s : ℕ) (past : List Event) → past ≢ [] → Searches statement name condition
        → table_place (base s past).schemas name ≡ Some table → slice_get (base s past).schemas table ≡ Some schema → IsKeyed (base s past) → HasFoundStill s table (matches schema.columns condition) found past
        → MaySee Sight.of_moments s statement (without_missed table (matches schema.columns condition) found (base s past)) past }
    ensures rows { (table : ℕ) (test found : List Value → Bool) (db : Database) → filter test (rows_of table (without_missed table test found db)) ≡ filter found (filter test (rows_of table db)) }
{}
