//! Laws of an INSERT whose tuples are settled in the step that tells their rows. Each function has an empty body: its contract is the law.
//! No two tuples need one moment: others may commit between them.

ghost use Rattle.std.specs.Prelude.{◌≡◌, ℕ, List, [], ◌∷◌, ◌++◌, length, Option, Some, None, is_some, true, Ok, Err, slice_get};
ghost use Rattle.std.specs.FinMap.{get};
ghost use Rattle.inno_types.specs.declared.value.Value.{Value};
ghost use Rattle.inno_types.specs.declared.value.Schema.{Schema};
ghost use Rattle.inno_types.specs.declared.stmt.Literal.{Literal};
ghost use Rattle.inno_types.specs.declared.stmt.Stmt.{Stmt};
ghost use Rattle.inno_types.specs.declared.stmt.Stmt.TheVariants.{Insert};
ghost use Rattle.inno_types.specs.declared.reply.Reply.TheVariants.{Count, Fail};
ghost use Rattle.inno_types.specs.declared.reply.SqlError.{SqlError};
ghost use Rattle.inno_types.specs.declared.reply.SqlError.TheVariants.{Duplicate};
ghost use Rattle.inno_db.specs.declared.change.Change.{Change};
ghost use Rattle.inno_db.specs.declared.change.Change.TheVariants.{Put};
ghost use Rattle.inno_db.specs.Database.{Database, key_of};
ghost use Rattle.inno_db.specs.Names.{table_place};
ghost use Rattle.inno_db.specs.Refusals.{refusal};
ghost use Rattle.inno_db.specs.Storing.{row_of_tuple};
ghost use Rattle.inno_db.specs.Outcome.{outcome};
ghost use Rattle.inno_db.specs.Keyed.{IsKeyed};
ghost use Rattle.inno_model.specs.declared.event.Event.{Event};
ghost use Rattle.inno_model.specs.declared.event.Event.TheVariants.{Changed};
ghost use Rattle.inno_model.specs.Past.{own, current};
ghost use Rattle.sql_history.specs.Items.{own_before, base};
ghost use Rattle.law_claims.specs.Claims.{Stands, GoesBeside};
ghost use Rattle.law_locked_work.specs.Inserting.{resting, IsInserting};

/// Before its first tuple an INSERT has all of them left.
pub fn an_insert_begins()
    ensures { (name : List ℕ) (names : Option (List (List ℕ))) (n : ℕ) (schema : Schema) (s : ℕ) (tuples : List (List Literal)) (past : List Event) → table_place (base s past).schemas name ≡ Some n → slice_get (base s past).schemas n ≡ Some schema
        → refusal (base s past).schemas (Insert name names tuples) ≡ None → own s past ≡ own_before s past → IsInserting (Insert name names tuples) name names n schema s [] tuples past }
{}

/// Where no row of those that the session sees has the tuple's key at the moment when its row is told, the outcome goes on with the tuples left.
pub fn a_row_that_is_told_goes_on()
    ensures { (statement : Stmt) (name : List ℕ) (names : Option (List (List ℕ))) (n : ℕ) (schema : Schema) (s : ℕ) (made : List Change) (tuple : List Literal) (tuples : List (List Literal)) (past : List Event) (row : List Value)
        → IsInserting statement name names n schema s made (tuple ∷ tuples) past → IsKeyed (current s past) → row_of_tuple schema.columns names tuple ≡ Ok row → get (current s past).rows (n, key_of schema row) ≡ None
        → IsInserting statement name names n schema s (made ++ Put n row ∷ []) tuples (Changed s (Put n row) ∷ past) }
{}

/// Where one has it, the whole is refused for it, and that stands as long as nobody else changes this row and those that the session has put.
pub fn a_key_that_is_taken_refuses()
    ensures { (statement : Stmt) (name : List ℕ) (names : Option (List (List ℕ))) (n : ℕ) (schema : Schema) (s : ℕ) (made : List Change) (tuple : List Literal) (tuples : List (List Literal)) (past : List Event) (row : List Value)
        → IsInserting statement name names n schema s made (tuple ∷ tuples) past → IsKeyed (current s past) → row_of_tuple schema.columns names tuple ≡ Ok row → is_some (get (current s past).rows (n, key_of schema row)) ≡ true
        → Stands (resting (own s past) (Some (n, key_of schema row))) (λ db. (outcome statement db).reply ≡ Fail (Duplicate (key_of schema row))) (base s past) }
{}

/// A tuple whose values make no row refuses the whole, whatever rows there are.
pub fn values_refuse()
    ensures { (statement : Stmt) (name : List ℕ) (names : Option (List (List ℕ))) (n : ℕ) (schema : Schema) (s : ℕ) (made : List Change) (tuple : List Literal) (tuples : List (List Literal)) (past : List Event) (error : SqlError)
        → IsInserting statement name names n schema s made (tuple ∷ tuples) past → IsKeyed (current s past) → row_of_tuple schema.columns names tuple ≡ Err error
        → Stands (resting (own s past) None) (λ db. (outcome statement db).reply ≡ Fail error) (base s past) }
{}

/// What others commit beside the session's own rows leaves all that.
pub fn an_insert_goes_beside_others()
    ensures { (statement : Stmt) (name : List ℕ) (names : Option (List (List ℕ))) (n : ℕ) (schema : Schema) (s : ℕ) (made : List Change) (tuples : List (List Literal)) (old new : List Event) → own s new ≡ own s old → own_before s new ≡ own_before s old
        → GoesBeside (resting (own s old) None) s old new → IsInserting statement name names n schema s made tuples old → IsInserting statement name names n schema s made tuples new }
{}

/// Behind its last tuple it has made the changes of its outcome, and counts them.
pub fn an_insert_ends()
    ensures { (statement : Stmt) (name : List ℕ) (names : Option (List (List ℕ))) (n : ℕ) (schema : Schema) (s : ℕ) (made : List Change) (past : List Event) → IsInserting statement name names n schema s made [] past
        → ((outcome statement (base s past)).changes ≡ made) × ((outcome statement (base s past)).reply ≡ Count (length made)) }
{}
