//! Laws of changes that are beside others, and beside what a statement reads: in what order they are made does not matter.
//! Each function has an empty body: its contract is the law.

ghost use Rattle.std.specs.Prelude.{◌≡◌, ℕ, true, List, Option};
ghost use Rattle.inno_types.specs.declared.stmt.Literal.{Literal};
ghost use Rattle.inno_types.specs.declared.stmt.Stmt.{Stmt};
ghost use Rattle.inno_types.specs.declared.stmt.Stmt.TheVariants.{Insert};
ghost use Rattle.inno_types.specs.declared.reply.Reply.TheVariants.{Count};
ghost use Rattle.inno_db.specs.declared.change.Change.{Change};
ghost use Rattle.inno_db.specs.Database.{Database};
ghost use Rattle.inno_db.specs.Outcome.{outcome};
ghost use Rattle.inno_model.specs.Past.{changed};
ghost use Rattle.law_db.specs.Beside.{AreApart, AreOfRows, IsBesideStatement, is_search};

/// Changes of rows at other places may be made first or last.
pub fn changes_apart_commute()
    ensures { (db : Database) (some others : List Change) → AreOfRows some → AreOfRows others → AreApart db.schemas some others → changed (changed db some) others ≡ changed (changed db others) some }
{}

/// A SELECT, UPDATE or DELETE has the same outcome behind changes of rows that its condition meets neither before nor behind
/// them. What the rows are in between, where one is changed more than once, does not matter.
pub fn outcome_beside()
    ensures { (statement : Stmt) (db : Database) (changes : List Change) → AreOfRows changes → is_search statement ≡ true → IsBesideStatement statement db changes → outcome statement (changed db changes) ≡ outcome statement db }
{}

/// An INSERT that was counted has the same outcome behind changes of rows at other keys than it puts.
pub fn insert_beside()
    ensures { (db : Database) (changes : List Change) (name : List ℕ) (columns : Option (List (List ℕ))) (tuples : List (List Literal)) (n : ℕ) → AreOfRows changes → (outcome (Insert name columns tuples) db).reply ≡ Count n
        → AreApart db.schemas (outcome (Insert name columns tuples) db).changes changes → outcome (Insert name columns tuples) (changed db changes) ≡ outcome (Insert name columns tuples) db }
{}
