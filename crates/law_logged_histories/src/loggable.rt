//! Laws: a change that fits its tables has a record, and a table that a text declares can be logged.
//! Neither speaks of a history: the laws that do stand in `laws`.

ghost use Rattle.std.specs.Prelude.{◌≡◌, ◌≤◌, ℕ, Bool, List, Some, length, All};
ghost use Rattle.inno_types.specs.declared.value.Schema.{Schema};
ghost use Rattle.inno_types.specs.declared.stmt.Definition.{Definition};
ghost use Rattle.inno_types.specs.declared.stmt.Stmt.TheVariants.{CreateTable};
ghost use Rattle.inno_db.specs.Declarations.{schema_declared};
ghost use Rattle.inno_db.specs.declared.change.Change.{Change};
ghost use Rattle.inno_db.specs.declared.limits.TheConstants.{MOST_TABLES};
ghost use Rattle.sql_grammar.specs.Grammar.{Spells};
ghost use Rattle.law_stored_rows.specs.Fitting.{FitsTables};
ghost use Rattle.law_stored_rows.specs.Numbers.{ChangeHas64Bits};
ghost use Rattle.commit_log.specs.Room.{IsLoggable, HasRecord};
ghost use Rattle.law_logged_histories.specs.Making.{MakesLoggable};

/// A change that fits its tables has a record, where the log can make these tables.
pub fn a_change_that_fits_has_a_record()
    ensures { (tables : List Schema) (change : Change) → length tables ≤ MOST_TABLES → All IsLoggable tables
        → MakesLoggable change → FitsTables tables change → ChangeHas64Bits change → HasRecord change }
{}

/// A table that a text declares can be logged.
pub fn a_spelled_table_can_be_logged()
    ensures { (text table : List ℕ) (if_not_exists : Bool) (definitions : List Definition) (schema : Schema)
        → Spells text (CreateTable table if_not_exists definitions) → schema_declared table definitions ≡ Some schema → IsLoggable schema }
{}
