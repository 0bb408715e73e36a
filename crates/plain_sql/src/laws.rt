//! What tables that come later leave as it was. Nothing here runs.
//! The law is the contract of a function with an empty body, which nobody calls.

ghost use Rattle.std.specs.Prelude.{◌≡◌, List, ◌++◌, None};
ghost use Rattle.inno_types.specs.declared.value.Schema.{Schema};
ghost use Rattle.inno_types.specs.declared.stmt.Stmt.{Stmt};
ghost use Rattle.inno_db.specs.Refusals.{refusal};
ghost use Rattle.plain_sql.specs.Finding.{IsOnRows};

/// A statement that its text and the tables don't refuse is not refused where more tables are there.
pub fn more_tables_refuse_no_more()
    ensures { (schemas more : List Schema) (stmt : Stmt) → IsOnRows stmt → refusal schemas stmt ≡ None → refusal (schemas ++ more) stmt ≡ None }
{}
