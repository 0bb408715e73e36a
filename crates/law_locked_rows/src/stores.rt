//! What is held of all sessions: at first, through calls of the lock table alone, and what readers by views have of it. Each
//! function has an empty body: its contract is the law.

ghost use Rattle.std.specs.Prelude.{◌≡◌, ◌≤◌, ℕ, true, List, [], length, None, Some, slice_get};
ghost use Rattle.inno_types.specs.declared.lock.Lock.{Lock};
ghost use Rattle.inno_types.specs.declared.value.Schema.{Schema};
ghost use Rattle.law_stored_rows.specs.Tables.{in_table};
ghost use Rattle.world.specs.State.{WorldState};
ghost use Rattle.world.specs.Told.{IsTold};
ghost use Rattle.read_view.specs.Sight.{Sight as ReadSight};
ghost use Rattle.row_search.specs.declared.scan.Scan.{Scan};
ghost use Rattle.row_search.specs.declared.sight.Sight.TheVariants.{View};
ghost use Rattle.row_search.specs.Tables.{ShowsRows};
ghost use Rattle.lock_table.specs.Queue.{AreApart};
ghost use Rattle.desks.specs.Desks.{Store, doing_at, is_quiet_doing};
ghost use Rattle.desks.specs.Holding.{IsFresh, IsHeld, SearchHeld, IsOwnView};
ghost use Rattle.law_locked_rows.specs.Owning.{AreOwned, KeepsAlone};
ghost use Rattle.law_locked_rows.specs.Many.{IsHeldByAll};

/// It holds where nobody has joined.
pub fn a_store_that_nobody_has_joined_is_held()
    ensures { (state : WorldState) → IsTold state → IsFresh state → IsHeldByAll (record { world = state; writer = None; desks = []; cuts = 0 }) [] }
{}

/// It holds of a store of the plain lock, where who changes rows has also locked their records, and nobody reads the newest rows.
pub fn a_store_of_the_plain_lock_is_held()
    ensures { (store : Store) (granted : List Lock) (held : IsHeld store) → AreOwned store.world store.desks granted → AreApart granted
        → ((s : ℕ) → SearchHeld held.chains (record store { writer = None }) s (doing_at s store.desks)) → IsHeldByAll store granted }
{}

/// A call of the lock table keeps it, where each session keeps the locks of records that it has alone.
pub fn calls_of_the_lock_table_keep_all()
    ensures { (store : Store) (granted now : List Lock) → IsHeldByAll store granted → AreApart now → ((s : ℕ) → KeepsAlone s store.world granted now)
        → IsHeldByAll store now }
{}

/// Who reads by a view finds the rows that it shows, however many others are at work.
pub fn a_reader_by_a_view_finds_its_rows()
    ensures { (store : Store) (granted : List Lock) (s : ℕ) (schema : Schema) (scan : Scan) (view : ReadSight) (reader : ℕ) (held : IsHeldByAll store granted)
        → IsTold store.world → is_quiet_doing (doing_at s store.desks) ≡ true → scan.sight ≡ View view reader
        → slice_get store.world.schemas scan.table ≡ Some schema → scan.which ≤ length schema.keys → IsOwnView store.world s view reader
        → ShowsRows schema scan store.world (in_table scan.table held.chains) }
{}
