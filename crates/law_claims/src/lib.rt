//! Laws of claims: what a session keeps of the rows, so that no other session changes it before its transaction ends, and that
//! an outcome that rests on what is kept stays what it is whatever others commit. Each function has an empty body: its contract
//! is the law.
#![tactic(auto)]

ghost use Rattle.std.specs.Prelude.{◌≡◌, ◌≢◌, ℕ, true, List, [], ◌∷◌, ◌++◌, Option, Some, None};
ghost use Rattle.inno_types.specs.declared.stmt.Literal.{Literal};
ghost use Rattle.inno_types.specs.declared.stmt.Stmt.{Stmt};
ghost use Rattle.inno_types.specs.declared.stmt.Stmt.TheVariants.{Insert};
ghost use Rattle.inno_types.specs.declared.reply.Reply.TheVariants.{Count, Fail};
ghost use Rattle.inno_types.specs.declared.reply.SqlError.{SqlError};
ghost use Rattle.inno_db.specs.declared.change.Change.{Change};
ghost use Rattle.inno_db.specs.Database.{Database, Place};
ghost use Rattle.inno_db.specs.Outcome.{outcome};
ghost use Rattle.inno_db.specs.Refusals.{refusal};
ghost use Rattle.inno_db.specs.Keyed.{IsKeyed};
ghost use Rattle.inno_model.specs.declared.event.Event.{Event};
ghost use Rattle.inno_model.specs.Past.{own, changed};
ghost use Rattle.sql_history.specs.Legal.{IsWriting};
ghost use Rattle.law_db.specs.Beside.{touches, is_search};
ghost use Rattle.law_claims.specs.Claims.{Claim, Leaves, Keeps, Basis, LeavesBasis, IsRefusedAt};

/// What another session has changed leaves what is kept as it is, so a commit of it does.
pub fn what_is_kept_is_left()
    ensures { (s other : ℕ) (claim : Claim) (past : List Event) (writer : Option ℕ) (db : Database) → Keeps s claim past writer → other ≢ s → Leaves claim db (own other past) }
{}

/// Changes that leave an outcome's basis, and then others that do, leave it together.
pub fn what_leaves_the_basis_goes_together()
    ensures { (basis : Basis) (db : Database) (later earlier : List Change) → LeavesBasis basis db earlier → LeavesBasis basis (changed db earlier) later → LeavesBasis basis db (later ++ earlier) }
{}

/// What an UPDATE or DELETE comes to, once its search is over, is the same behind changes that leave the rows that it searched for.
pub fn an_outcome_stands_on_the_rows_searched_for()
    ensures { (statement : Stmt) (basis : Basis) (db : Database) (others : List Change) → is_search statement ≡ true → IsWriting statement → basis.searched ≡ Some statement → LeavesBasis basis db others
        → outcome statement (changed db others) ≡ outcome statement db }
{}

/// What an INSERT that was counted comes to is the same behind changes that leave the places of its own.
pub fn an_insert_stands_on_its_places()
    ensures { (name : List ℕ) (columns : Option (List (List ℕ))) (tuples : List (List Literal)) (n : ℕ) (basis : Basis) (db : Database) (others : List Change) → (outcome (Insert name columns tuples) db).reply ≡ Count n
        → ((place : Place) → touches db.schemas (outcome (Insert name columns tuples) db).changes place ≡ true → touches db.schemas basis.changes place ≡ true)
        → LeavesBasis basis db others → outcome (Insert name columns tuples) (changed db others) ≡ outcome (Insert name columns tuples) db }
{}

/// And the refusal of a tuple is the same behind changes that leave the row for which it was refused.
pub fn a_refusal_stands_on_the_row_that_is_there()
    ensures { (name : List ℕ) (columns : Option (List (List ℕ))) (tuple : List Literal) (error : SqlError) (basis : Basis) (db : Database) (others : List Change) → IsKeyed db
        → refusal db.schemas (Insert name columns (tuple ∷ [])) ≡ None → (outcome (Insert name columns (tuple ∷ [])) db).reply ≡ Fail error → IsRefusedAt db.schemas name error basis
        → LeavesBasis basis db others → outcome (Insert name columns (tuple ∷ [])) (changed db others) ≡ outcome (Insert name columns (tuple ∷ [])) db }
{}
