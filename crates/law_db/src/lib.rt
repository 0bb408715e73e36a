//! Laws of databases, changes and outcomes, and of changes that are beside others (`beside`).
//! Each function has an empty body: its contract is the law. Nothing calls them; they show that the definitions say what a database
//! user expects.
#![tactic(auto)]

mod beside;

ghost use Rattle.std.specs.Prelude.{◌≡◌, ℕ, List, ◌++◌, Some, Option, slice_get};
ghost use Rattle.inno_types.specs.declared.value.Schema.{Schema};
ghost use Rattle.inno_types.specs.declared.value.Value.{Value};
ghost use Rattle.inno_types.specs.declared.stmt.Stmt.{Stmt};
ghost use Rattle.inno_types.specs.declared.stmt.Literal.{Literal};
ghost use Rattle.inno_db.specs.declared.change.Change.{Change};
ghost use Rattle.inno_db.specs.Database.{Database, rows_of};
ghost use Rattle.inno_db.specs.Changes.{apply};
ghost use Rattle.inno_db.specs.Outcome.{outcome, inserted, table_read};
ghost use Rattle.inno_db.proofs.Applying.{AreElsewhere};
ghost use Rattle.inno_db.specs.Keyed.{IsKeyed};
ghost use Rattle.law_db.specs.Fitting.{AreRowsOf, AllFit};
ghost use Rattle.law_db.specs.RowChanges.{rows_after, AreOfTables, AreApplicable, AllStand};

pub use beside::{changes_apart_commute, insert_beside, outcome_beside};

/// To make some changes and then others is to make them all.
pub fn changes_follow_one_another()
    ensures { (db : Database) (first second : List Change) → apply db (first ++ second) ≡ apply (apply db first) second }
{}

/// Changes of other tables leave a table's rows.
pub fn other_tables_stay()
    ensures { (table : ℕ) (db : Database) (changes : List Change) → AreElsewhere table changes → rows_of table (apply db changes) ≡ rows_of table db }
{}

/// The rows of a table after changes: each put takes its row's key, each removal frees one.
pub fn rows_follow_the_changes()
    ensures { (table : ℕ) (schema : Schema) (db : Database) (changes : List Change) → IsKeyed db → slice_get db.schemas table ≡ Some schema → AreOfTables db.schemas changes → rows_of table (apply db changes) ≡ rows_after schema table (rows_of table db) changes }
{}

/// A statement reads no more of a database than the schemas and the rows of its own table.
pub fn a_statement_reads_its_table()
    ensures { (stmt : Stmt) (db other : Database) → db.schemas ≡ other.schemas → ((n : ℕ) → table_read db.schemas stmt ≡ Some n → rows_of n db ≡ rows_of n other) → outcome stmt db ≡ outcome stmt other }
{}

/// After an INSERT each row that it put stands at its key.
pub fn inserted_rows_stand()
    ensures { (db : Database) (table : ℕ) (schema : Schema) (names : Option (List (List ℕ))) (tuples : List (List Literal)) → slice_get db.schemas table ≡ Some schema → AllStand (apply db (inserted table schema names (rows_of table db) tuples).changes) (inserted table schema names (rows_of table db) tuples).changes }
{}

/// The changes of an outcome can be made to its database.
pub fn outcomes_can_be_made()
    ensures { (stmt : Stmt) (db : Database) → AreApplicable db (outcome stmt db).changes }
{}

/// Where each row of a database fits its table's columns, so do the rows that an outcome puts.
pub fn outcomes_fit_their_tables()
    ensures { (stmt : Stmt) (db : Database) → ((n : ℕ) (schema : Schema) → slice_get db.schemas n ≡ Some schema → AreRowsOf schema.columns (rows_of n db)) → AllFit db.schemas (outcome stmt db).changes }
{}
