//! What an INSERT depends on: no row makes a difference whose key its tuples don't give.
//! The function does nothing, its contract is the law, and nothing calls it.

ghost use Rattle.std.specs.Prelude.{◌≡◌, ℕ, true, Bool, List, Option, All, filter};
ghost use Rattle.inno_types.specs.declared.value.Value.{Value};
ghost use Rattle.inno_types.specs.declared.value.Schema.{Schema};
ghost use Rattle.inno_types.specs.declared.stmt.Literal.{Literal};
ghost use Rattle.inno_db.specs.Database.{key_of};
ghost use Rattle.inno_db.specs.Outcome.{inserted, is_same_value};
ghost use Rattle.sql_plan.specs.Visits.{IsRowOf};
ghost use Rattle.sql_plan.specs.Keys.{IsMade};

/// Rows with other keys than those of the tuples' rows make no difference to an INSERT.
pub fn other_keys_make_no_difference()
    ensures { (passes : List Value → Bool) (table : ℕ) (schema : Schema) (names : Option (List (List ℕ))) (rows : List (List Value)) (tuples : List (List Literal))
        → All (IsRowOf schema.columns) rows
        → ((row new : List Value) → IsRowOf schema.columns row → IsMade schema.columns names tuples new
        → is_same_value (key_of schema row) (key_of schema new) ≡ true → passes row ≡ true)
        → inserted table schema names (filter passes rows) tuples ≡ inserted table schema names rows tuples }
{}
