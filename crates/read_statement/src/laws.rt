//! What rows read without a view say, as contracts of functions with empty bodies. Nothing calls them: a SELECT at READ
//! UNCOMMITTED that visits one place a step, while others make their steps, would stand on the first.

ghost use Rattle.std.specs.Prelude.{◌≡◌, ◌≢◌, ℕ, List, [], IsTrue};
ghost use Rattle.std.specs.FinMap.{get, find, is_sorted};
ghost use Rattle.inno_types.specs.declared.value.Value.{Value};
ghost use Rattle.inno_db.specs.Database.{Database, place_cmp, rows_of};
ghost use Rattle.inno_model.specs.declared.event.Event.{Event};
ghost use Rattle.inno_model.specs.Moments.{Sometime};
ghost use Rattle.inno_model.specs.Past.{own, current};
ghost use Rattle.sql_history.specs.LooseReading.{newest, IsQuiet, IsLooseReading};
ghost use Rattle.law_past_agreement.specs.Order.{IsOrdered};
ghost use Rattle.law_past_agreement.specs.DatabaseTables.{at_places, rows_in};

/// Rows that rise by their keys, each the newest of its place at some moment of the item, are the table's rows in a
/// database that the item may see.
pub fn rows_of_moments_are_a_loose_reading()
    ensures { (h : List Event) (s table : ℕ) (rows : List (Value × List Value)) → h ≢ [] → IsTrue (is_sorted place_cmp (at_places table rows))
        → ((key : Value) → Sometime (λ g. get (newest g).rows (table, key) ≡ find place_cmp (table, key) (at_places table rows)) s h)
        → (db : Database) × IsLooseReading s newest (IsQuiet s) db h × (rows_of table db ≡ rows_in rows) }
{}

/// While one session alone has changes, the newest rows of all are those that it sees.
pub fn the_newest_is_what_the_writer_sees()
    ensures { (h : List Event) (w : ℕ) → IsOrdered h → ((u : ℕ) → u ≢ w → own u h ≡ []) → newest h ≡ current w h }
{}
