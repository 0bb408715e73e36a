//! Laws of what a transaction has changed, as the versions of its rows tell it. Each function has an empty body: its contract is the law.
//! What a commit changes is met by no search that is kept: a store of record locks is to ask it of its own steps.

ghost use Rattle.std.specs.Prelude.{◌≡◌, ◌≢◌, ℕ, true, false, Bool, List, Option, Some};
ghost use Rattle.std.specs.List.{list_any};
ghost use Rattle.std.specs.FinMap.{get};
ghost use Rattle.inno_types.specs.declared.lock.Lock.{Lock};
ghost use Rattle.inno_types.specs.declared.value.Value.{Value};
ghost use Rattle.inno_types.specs.declared.value.Schema.{Schema};
ghost use Rattle.store_api.specs.declared.answers.Undo.{Undo};
ghost use Rattle.inno_db.specs.declared.change.Change.{Change};
ghost use Rattle.inno_db.specs.Database.{key_of};
ghost use Rattle.inno_model.specs.declared.event.Event.{Event};
ghost use Rattle.inno_model.specs.Past.{own, txn, changed, commits, committed, IsOpen};
ghost use Rattle.key_codec.specs.Keys.{IsOfKind};
ghost use Rattle.lock_table.specs.Queue.{AreApart};
ghost use Rattle.law_stored_rows.specs.Edits.{clustered_index};
ghost use Rattle.sql_plan.specs.declared.choice.Plan.{Plan};
ghost use Rattle.sql_plan.specs.Visits.{kind_at};
ghost use Rattle.row_versions.specs.declared.place.Place.{Place};
ghost use Rattle.row_versions.specs.declared.version.Version.{Version};
ghost use Rattle.row_versions.specs.Chains.{Chains, versions_at, newest};
ghost use Rattle.law_past_agreement.specs.Order.{created, IsOrdered};
ghost use Rattle.law_past_agreement.specs.Ids.{id_of};
ghost use Rattle.law_past_agreement.specs.Rows.{is_at, row_at, row_opened};
ghost use Rattle.law_past_agreement.specs.Agreement.{versions_of, AreVersionsBy, AreVersions};
ghost use Rattle.sql_lists.specs.Kept.{AreStanding, IsInOrder};
ghost use Rattle.law_db.specs.Beside.{touches, IsUnmet};
ghost use Rattle.law_histories.specs.Work.{committed_db};
ghost use Rattle.law_locks.specs.Guards.{has_record};
ghost use Rattle.law_locked_work.specs.Owned.{front_of, behind_of, key_bytes, OwnsAt, lies_in, KeepsPlan};

/// A transaction's own versions of a place stand in front, one for each of its changes there, and the first behind them is the row of the last commit.
pub fn own_versions_stand_in_front()
    ensures front { (h : List Event) (t : ℕ) (opened : Option (List Value)) (at : Change → Bool) (versions : List Version) → IsOrdered h → IsOpen t h → list_any at (own t h) ≡ true → AreVersionsBy h t opened at versions
        → front_of (id_of h t) versions ≡ versions_of (id_of h t) at (own t h) }
    ensures behind { (h : List Event) (t : ℕ) (opened : Option (List Value)) (at : Change → Bool) (versions : List Version) → IsOrdered h → IsOpen t h → list_any at (own t h) ≡ true → AreVersionsBy h t opened at versions
        → newest (behind_of (id_of h t) versions) ≡ row_at opened at (committed (commits h) h) }
{}

/// What a transaction commits is met by no search that another one keeps, where it owns each row that it has changed, in the index of the search, and
/// each row that it leaves has a key of the primary column's kind.
pub fn own_changes_are_owned()
    ensures { (h : List Event) (s t : ℕ) (chains : Chains) (schema : Schema) (table : ℕ) (plan : Plan) (records : List (List ℕ)) (granted : List Lock) (made : ℕ) (log : List Undo)
        → IsOrdered h → AreStanding h → IsInOrder h → s ≢ t → IsOpen s h → IsOpen t h
        → ((place : Place) → AreVersions h (row_opened h place) (is_at (created h) place) (versions_at place chains))
        → AreApart granted
        → ((key : Value) → touches (committed_db h).schemas (own t h) (table, key) ≡ true → OwnsAt schema table plan.which records granted chains h t key)
        → ((key : Value) (row : List Value) → get (changed (committed_db h) (own t h)).rows (table, key) ≡ Some row → IsOfKind (kind_at schema.columns schema.primary) (key_of schema row))
        → KeepsPlan schema table plan records granted made log h s
        → IsUnmet table (lies_in schema plan) (committed_db h) (own t h) }
{}

/// Nor does it change a row whose record another has locked.
pub fn a_locked_row_stays()
    ensures { (h : List Event) (s t : ℕ) (chains : Chains) (schema : Schema) (table : ℕ) (granted : List Lock) (records : List (List ℕ)) (key : Value)
        → IsOrdered h → AreStanding h → IsInOrder h → s ≢ t → IsOpen s h → IsOpen t h → AreApart granted
        → (touches (committed_db h).schemas (own t h) (table, key) ≡ true → OwnsAt schema table 0 records granted chains h t key)
        → has_record (txn s h) (clustered_index table) (key_bytes schema key) granted ≡ true → touches (committed_db h).schemas (own t h) (table, key) ≡ false }
{}
