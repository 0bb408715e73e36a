//! Laws of savepoints: one takes the place of its name, and a rollback to one keeps it.
//! The functions are empty, and nothing calls them.

ghost use Rattle.std.specs.Prelude.{◌≡◌, ℕ, List, Some, true};
ghost use Rattle.sql_history.specs.declared.settings.Save.{Save};
ghost use Rattle.sql_history.specs.Settings.{made_at, saved, back_to};

/// In a transaction SAVEPOINT keeps its name with the changes made so far, whatever stood there under the name.
pub fn a_savepoint_takes_the_place_of_its_name()
    ensures { (name : List ℕ) (made : ℕ) (saves : List Save) → made_at name (saved name made true saves) ≡ Some made }
{}

/// ROLLBACK TO keeps the savepoint that it goes back to.
pub fn a_rollback_keeps_its_savepoint()
    ensures { (name : List ℕ) (saves : List Save) → made_at name (back_to name saves) ≡ made_at name saves }
{}
