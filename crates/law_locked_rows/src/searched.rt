//! What a session has searched and locked stands beside the steps of others, their commits too, and tells what it has found.
//! Each function has an empty body: its contract is the law.

ghost use Rattle.std.specs.Prelude.{◌≡◌, ◌≢◌, ◌⊎◌, ◌≤◌, ℕ, Bool, true, false, List, ◌∷◌, length, map, None, Some, slice_get};
ghost use Rattle.std.specs.FinMap.{get};
ghost use Rattle.inno_types.specs.declared.lock.Lock.{Lock};
ghost use Rattle.inno_types.specs.declared.value.Schema.{Schema};
ghost use Rattle.inno_types.specs.declared.value.Value.{Value};
ghost use Rattle.inno_types.specs.declared.stmt.Range.{Range};
ghost use Rattle.inno_types.specs.Ranges.{is_within};
ghost use Rattle.inno_db.specs.Indexes.{index_of};
ghost use Rattle.inno_model.specs.declared.event.Event.TheVariants.{Committed};
ghost use Rattle.inno_model.specs.Past.{own, commits, committed, changed};
ghost use Rattle.store_api.specs.declared.answers.Undo.{Undo};
ghost use Rattle.law_past_agreement.specs.Order.{created};
ghost use Rattle.law_past_agreement.specs.DatabaseTables.{with_all_tables};
ghost use Rattle.sql_plan.specs.declared.choice.Plan.{Plan};
ghost use Rattle.sql_plan.specs.Visits.{index_key, primary_key};
ghost use Rattle.law_db.specs.Beside.{touches, passed};
ghost use Rattle.law_stored_rows.specs.Edits.{clustered_index};
ghost use Rattle.law_locks.specs.Guards.{Guarded, has_record};
ghost use Rattle.world.specs.State.{WorldState, Session, Work, HasWork};
ghost use Rattle.world.specs.Told.{IsTold};
ghost use Rattle.shared_lists.specs.Steps.{AreRowsSeen};
ghost use Rattle.row_search.specs.declared.scan.Scan.{Scan};
ghost use Rattle.row_search.specs.declared.found.FoundRow.{FoundRow};
ghost use Rattle.row_search.specs.Ranges.{lies_below};
ghost use Rattle.desks.specs.Desks.{Store, doing_at, is_quiet_doing};
ghost use Rattle.desks.specs.Holding.{lags_in};
ghost use Rattle.law_locked_rows.specs.Many.{IsHeldByAll};
ghost use Rattle.law_locked_rows.specs.Now.{row_now};
ghost use Rattle.law_locked_rows.specs.Entries.{AreEntriesOwned};
ghost use Rattle.law_locked_rows.specs.Locking.{records_in, lies_past, lies_to, IsLocking, IsAtEntry, KeepsTo};
ghost use Rattle.law_locked_rows.specs.Keeping.{LeavesGuards, StayOrFail};
ghost use Rattle.law_locked_rows.specs.Plans.{KeepsPlan, AreInOrder};

/// A search knows what it knew behind a step that leaves its guards, and each row as it was or failing before and now.
pub fn a_search_keeps_what_it_knows()
    ensures locking { (schema : Schema) (scan : Scan) (s txn made : ℕ) (log : List Undo) (old new : WorldState) (granted now : List Lock) (passes : List ℕ → Bool)
        → LeavesGuards scan txn made log old new granted now → StayOrFail (lies_past schema scan passes) (row_now s scan.table old.past) (row_now s scan.table new.past)
        → IsLocking schema scan s txn made log passes old granted → IsLocking schema scan s txn made log passes new now }
    ensures at_entry { (schema : Schema) (scan : Scan) (s txn made : ℕ) (log : List Undo) (old new : WorldState) (granted now : List Lock) (entry : List ℕ)
        → LeavesGuards scan txn made log old new granted now → StayOrFail (lies_below schema scan entry) (row_now s scan.table old.past) (row_now s scan.table new.past)
        → IsAtEntry schema scan s txn made log entry old granted → IsAtEntry schema scan s txn made log entry new now }
{}

/// What is kept of a range stays so through a step of another, and through one of its own that has each changed row's record locked.
pub fn what_is_kept_stays_kept()
    ensures others { (schema : Schema) (table which : ℕ) (range : Range) (s txn made : ℕ) (log : List Undo) (passes : List ℕ → Bool) (old new : WorldState) (granted now : List Lock)
        → ((key : List ℕ) → Guarded txn (index_of table which) (records_in old (index_of table which)) granted key made log
        → Guarded txn (index_of table which) (records_in new (index_of table which)) now key made log)
        → ((key : List ℕ) → has_record txn (clustered_index table) key granted ≡ true → has_record txn (clustered_index table) key now ≡ true)
        → StayOrFail (lies_to schema which range passes) (row_now s table old.past) (row_now s table new.past)
        → KeepsTo schema table which range s txn made log passes old granted → KeepsTo schema table which range s txn made log passes new now }
    ensures own { (schema : Schema) (table which : ℕ) (range : Range) (s txn made : ℕ) (log later : List Undo) (passes : List ℕ → Bool) (old new : WorldState) (granted now : List Lock)
        → ((key : List ℕ) → Guarded txn (index_of table which) (records_in old (index_of table which)) granted key made log
        → Guarded txn (index_of table which) (records_in new (index_of table which)) now key made later)
        → ((value : Value) (row : List Value) → row_now s table new.past value ≡ Some row
        → ((row_now s table old.past value ≡ Some row) × (has_record txn (clustered_index table) (primary_key schema row) granted ≡ true
        → has_record txn (clustered_index table) (primary_key schema row) now ≡ true))
        ⊎ (has_record txn (clustered_index table) (primary_key schema row) now ≡ true))
        → KeepsTo schema table which range s txn made log passes old granted → KeepsTo schema table which range s txn made later passes new now }
{}

/// A commit of another leaves each row of what is kept as it was: what it has changed lies outside, before and behind.
pub fn commits_leave_what_is_kept()
    ensures { (store : Store) (granted : List Lock) (s t table which made : ℕ) (session : Session) (work : Work) (schema : Schema) (range : Range) (log : List Undo) (passes : List ℕ → Bool) (held : IsHeldByAll store granted)
        → AreEntriesOwned held.chains held.rows.said store.world granted → HasWork s session work store.world → s ≢ t
        → lags_in store.world t (doing_at t store.desks) ≡ None → slice_get store.world.schemas table ≡ Some schema → which ≤ length schema.keys
        → KeepsTo schema table which range s work.txn made log passes store.world granted
        → StayOrFail (lies_to schema which range passes) (row_now s table store.world.past) (row_now s table (Committed t ∷ store.world.past)) }
{}

/// So no row that it has changed passes a plan that another keeps, neither as it was nor as it is then.
pub fn commits_are_met_by_no_plan()
    ensures { (store : Store) (granted : List Lock) (s t table made : ℕ) (session : Session) (work : Work) (plan : Plan) (log : List Undo) (key : Value) (held : IsHeldByAll store granted)
        → AreEntriesOwned held.chains held.rows.said store.world granted → HasWork s session work store.world → s ≢ t
        → lags_in store.world t (doing_at t store.desks) ≡ None
        → (keeps : KeepsPlan s work.txn table plan made log store.world granted)
        → touches (created store.world.past) (own t store.world.past) (table, key) ≡ true
        → (passed (λ row. is_within plan.range (index_key keeps.schema plan.which row))
        (get (changed (with_all_tables store.world.past) (committed (commits store.world.past) store.world.past)).rows (table, key)) ≡ None)
        × (passed (λ row. is_within plan.range (index_key keeps.schema plan.which row))
        (get (changed (changed (with_all_tables store.world.past) (committed (commits store.world.past) store.world.past)) (own t store.world.past)).rows (table, key)) ≡ None) }
{}

/// A search that is over has found the rows of its plan that the session sees now, and keeps the plan.
pub fn a_search_that_is_over_has_its_rows()
    ensures rows { (store : Store) (granted : List Lock) (s made : ℕ) (session : Session) (work : Work) (schema : Schema) (scan : Scan) (log : List Undo) (plan : Plan) (rows : List FoundRow)
        → IsHeldByAll store granted → IsTold store.world → HasWork s session work store.world → is_quiet_doing (doing_at s store.desks) ≡ true
        → slice_get store.world.schemas scan.table ≡ Some schema → scan.which ≤ length schema.keys → plan.which ≡ scan.which → plan.range ≡ scan.range
        → IsLocking schema scan s work.txn made log (λ key. false) store.world granted → AreInOrder scan.which scan.rows.items rows
        → AreRowsSeen scan.table plan store.world.past s (commits store.world.past) (map (λ (found : FoundRow). found.row) rows) }
    ensures keeps { (store : Store) (granted : List Lock) (s made : ℕ) (session : Session) (work : Work) (schema : Schema) (scan : Scan) (log : List Undo) (plan : Plan)
        → IsHeldByAll store granted → IsTold store.world → HasWork s session work store.world → is_quiet_doing (doing_at s store.desks) ≡ true
        → slice_get store.world.schemas scan.table ≡ Some schema → scan.which ≤ length schema.keys → plan.which ≡ scan.which → plan.range ≡ scan.range
        → IsLocking schema scan s work.txn made log (λ key. false) store.world granted → KeepsPlan s work.txn scan.table plan made log store.world granted }
{}
