//! Laws of searches, as contracts of functions with empty bodies.
//! Statements stand on them; nothing calls them.

ghost use Rattle.std.specs.Prelude.{◌≡◌, ◌+◌, ℕ, true, IsTrue, List, Option, Some, slice_get};
ghost use Rattle.std.specs.List.{list_any};
ghost use Rattle.inno_types.specs.declared.value.Value.{Value};
ghost use Rattle.inno_types.specs.declared.value.Key.{Key};
ghost use Rattle.inno_types.specs.declared.value.Schema.{Schema};
ghost use Rattle.entries.specs.Pairs.{Pair};
ghost use Rattle.row_versions.specs.declared.kept.Kept.{Kept};
ghost use Rattle.row_versions.specs.declared.version.Version.{Version};
ghost use Rattle.row_versions.specs.Chains.{newest};
ghost use Rattle.law_stored_rows.specs.Entries.{value_in, has_value, HasEntries};
ghost use Rattle.law_stored_rows.specs.Records.{IsClustered, KeepsMore};
ghost use Rattle.world.specs.State.{WorldState};
ghost use Rattle.row_search.specs.declared.sight.Sight.{Sight};
ghost use Rattle.row_search.specs.declared.search.RowSearch.{RowSearch};
ghost use Rattle.row_search.specs.Sights.{rows_seen};
ghost use Rattle.row_search.specs.Tables.{HaveKeys};
ghost use Rattle.row_search.specs.Searches.{IsSearching, Finds, place_in};
ghost use Rattle.row_search.specs.Others.{KeepsWay};
ghost use Rattle.inno_types.specs.declared.stmt.Filter.{Filter};
ghost use Rattle.sql_plan.specs.declared.choice.Plan.{Plan};
ghost use Rattle.inno_types.specs.Ranges.{is_within};
ghost use Rattle.sql_plan.specs.Visits.{index_key};
ghost use Rattle.sql_plan.specs.Covers.{CoversMatches};
ghost use Rattle.row_search.specs.declared.found.FoundRow.{FoundRow};
ghost use Rattle.row_search.specs.FoundRows.{AreFound, RiseByKey, matching};

/// Steps of others keep what was found, where the reader sees the same row at each place as before and the versions that
/// its search goes along next are kept. They are where whatever was kept is kept still. The search may go on where its
/// table and its actor's place are there, too.
pub fn steps_of_others_keep_what_was_found()
    ensures found { (schema : Schema) (old new : ℕ → Option Kept) (place : Option Pair) (was now : Value → List Version) (search : RowSearch)
        → ((value : Value) → rows_seen search.scan.sight now value ≡ rows_seen search.scan.sight was value)
        → KeepsWay schema search.scan.sight old new search.phase
        → Finds schema old place was search
        → Finds schema new place now search }
    ensures way { (schema : Schema) (old new : ℕ → Option Kept) (search : RowSearch) → KeepsMore old new
        → KeepsWay schema search.scan.sight old new search.phase }
    ensures searching { (actor : ℕ) (schema : Schema) (old new : WorldState) (search : RowSearch)
        → IsSearching actor schema old search
        → slice_get new.schemas search.scan.table ≡ Some schema
        → place_in actor search.scan new ≡ place_in actor search.scan old
        → (IsTrue new.versions.told → IsTrue old.versions.told)
        → (IsTrue new.versions.told → KeepsWay schema search.scan.sight old.versions.kept_at new.versions.kept_at search.phase)
        → IsSearching actor schema new search }
{}

/// Each row that a reader sees has its key in the clustered index. It has it in the index of a key which tells of all
/// versions, and of a key that lags where what it tells of has the row's value.
pub fn seen_rows_have_their_keys()
    ensures clustered { (table : ℕ) (schema : Schema) (kept : ℕ → Option Kept) (pairs : List Pair) (versions_at : Value → List Version) (sight : Sight)
        → IsClustered table schema kept pairs versions_at
        → HaveKeys schema 0 pairs (rows_seen sight versions_at) }
    ensures keyed { (table : ℕ) (schema : Schema) (kept : ℕ → Option Kept) (pairs entries : List Pair) (versions_at : Value → List Version)
        (sight : Sight) (at : ℕ) (key : Key)
        → IsClustered table schema kept pairs versions_at
        → slice_get schema.keys at ≡ Some key
        → HasEntries schema key.column entries versions_at
        → HaveKeys schema (1 + at) entries (rows_seen sight versions_at) }
    ensures lagging { (table : ℕ) (schema : Schema) (kept : ℕ → Option Kept) (pairs entries : List Pair) (versions_at said : Value → List Version)
        (sight : Sight) (at : ℕ) (key : Key)
        → IsClustered table schema kept pairs versions_at
        → slice_get schema.keys at ≡ Some key
        → HasEntries schema key.column entries said
        → ((value : Value) (row : List Value) → rows_seen sight versions_at value ≡ Some row
        → list_any (λ told. has_value key.column (value_in key.column row) told.row) (said value) ≡ true)
        → HaveKeys schema (1 + at) entries (rows_seen sight versions_at) }
{}

/// Who reads without a view sees the newest version of each row.
pub fn the_newest_rows_are_seen()
    ensures { (versions_at : Value → List Version) (value : Value) → rows_seen Sight.Newest versions_at value ≡ newest (versions_at value) }
{}

/// Of a table's rows that a reader sees, those that meet a condition are among those that its plan's search finds: the ones
/// found that meet it are the ones of the whole table, in the order of their keys.
pub fn a_search_finds_all_that_match()
    ensures { (table : ℕ) (schema : Schema) (kept : ℕ → Option Kept) (pairs : List Pair) (versions_at : Value → List Version) (sight : Sight)
        (filter_by : Filter) (plan : Plan) (found all : List FoundRow)
        → IsClustered table schema kept pairs versions_at
        → CoversMatches schema filter_by plan
        → AreFound schema plan.which (rows_seen sight versions_at) (λ row. is_within plan.range (index_key schema plan.which row)) found
        → RiseByKey found
        → AreFound schema 0 (rows_seen sight versions_at) (λ row. true) all
        → RiseByKey all
        → matching schema filter_by found ≡ matching schema filter_by all }
{}
