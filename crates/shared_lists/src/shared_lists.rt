//! The calls of whatever keeps the lists. A session may have one thing under way with rows at a time.
//! `SqlLists` makes the calls that change them, and statements only read by the others; `world_lists` meets the trait.

ghost use Rattle.std.specs.Prelude.{◌≡◌, ◌≢◌, ℕ, ◌+◌, ◌-◌, ◌<◌, ◌≤◌, ◌^◌, [], ◌∷◌, ◌++◌, true, false, length, is_some, OnOk, OnErr, IfOk, IfSome, IfNone, Some, None, slice_get, slice_index_or, slice_set};
ghost use Rattle.inno_types.specs.Order.{IsBelow};
ghost use Rattle.inno_types.specs.declared.value.Schema.{Schema};
ghost use Rattle.inno_model.specs.declared.event.Event.TheVariants.{Begin, Started, View, Changed as ChangedEvent, Undone as UndoneEvent, Ended, Committed, Acked, RolledBack, Signal};
ghost use Rattle.inno_model.specs.Past.{under_way, level, own, started, begins, view_of, txn, IsOpen, IsClosed};
ghost use Rattle.sql_history.specs.Counts.{rows_of_reply};
ghost use Rattle.sql_history.specs.Settings.{at_first, at_begin, at_end, saved, set_by};
ghost use Rattle.store_api.specs.declared.stepped.Stepped.TheVariants.{Went};
ghost use Rattle.law_stored_rows.specs.Storable.{IsStorable};
ghost use Rattle.law_past_agreement.specs.Order.{created, IsOfRow, MayCome, IsOrdered};
ghost use Rattle.shared_lists.specs.Fitting.{FitsWell, FitsThen, RemovesOne};
ghost use Rattle.shared_lists.specs.Tasks.{Idle, Searching, is_changing, asked, steps_left, MayTakeBack};
ghost use Rattle.shared_lists.specs.State.{Lists, task_of, places_before, counted, Adds, Closes, Turns, Stays, IsNow};
ghost use Rattle.law_past_agreement.specs.Slots.{writer_without};
ghost use Rattle.shared_lists.specs.Tables.{table_made, set_after, MakesNoTable};
ghost use Rattle.shared_lists.specs.Steps.{Searches, AreNewestRows, Changes, rows_entered, TakesBack};

use crate::answers::{Changed, Reading, Searched, Undone};
use inno_db::Change;
use inno_model::History;
use inno_types::{Bytes, Item, Level, Listed, Reply, Rows, Schema, Stmt};
use sql_history::SessionSettings;
use sql_plan::Plan;
use store_api::NoMemory;

/// Whatever keeps the lists that all sessions share.
pub trait SharedLists: Drop {
    /// What contracts see of them.
    ghost lists: { Self → Lists };

    /// The history, whose entries are in order.
    fn history(&self) -> &History
        ensures names { result.now.names ≡ (lists self.now).state.names }
        ensures past { result.now.past ≡ (lists self.now).state.past }
        ensures sound { IsOrdered (lists self.now).state.past }
        ensures fits { FitsThen (lists self.now).state.past };

    /// The history, and nothing else.
    fn into_history(self) -> History
        ensures names { result.names ≡ (lists self).state.names }
        ensures past { result.past ≡ (lists self).state.past };

    /// The tables, by number.
    fn schemas(&self) -> &Listed<Schema>
        ensures { result.now ≡ created (lists self.now).state.past };

    /// What a session has set.
    fn setting(&self, session: u32) -> &SessionSettings
        requires { session < length (lists self.now).state.names }
        ensures { result.now ≡ slice_index_or (lists self.now).settings session at_first };

    /// How many rows the history holds.
    fn rows(&self) -> u64
        ensures { result ≡ (lists self.now).rows };

    /// The level of the session's open transaction.
    /// Without one no changes stand.
    fn level(&self, session: u32) -> Option<Level>
        requires { session < length (lists self.now).state.names }
        ensures level { result ≡ level session (lists self.now).state.past }
        ensures closed { level session (lists self.now).state.past ≡ None → own session (lists self.now).state.past ≡ [] };

    /// The number of the session's open transaction.
    fn txn_of(&self, session: u32) -> u64
        requires joined { session < length (lists self.now).state.names }
        requires is_open { IsOpen session (lists self.now).state.past }
        ensures { result ≡ txn session (lists self.now).state.past };

    /// Whether the session's open transaction has a view.
    fn has_view(&self, session: u32) -> bool
        requires joined { session < length (lists self.now).state.names }
        requires is_open { IsOpen session (lists self.now).state.past }
        ensures { result ≡ is_some (view_of session (lists self.now).state.past) };

    /// How many changes of the session's open transaction stand.
    fn change_count(&self, session: u32) -> usize
        requires { session < length (lists self.now).state.names }
        ensures { result ≡ length (own session (lists self.now).state.past) };

    /// The session that may write.
    fn writer(&self) -> Option<u32>
        ensures told { result ≡ (lists self.now).state.writer }
        ensures nobody { IfNone result ((s : ℕ) → own s (lists self.now).state.past ≡ []) }
        ensures alone { IfSome result (λ w. (w < length (lists self.now).state.names) × IsOpen w (lists self.now).state.past × ((s : ℕ) → s ≢ w → own s (lists self.now).state.past ≡ [])) };

    /// Another session, which has set nothing. An `Err` changes nothing that a contract sees.
    fn join(&mut self, name: Bytes) -> Result<u32, NoMemory>
        ensures number { IfOk result (λ session. session ≡ length (lists self.old).state.names) }
        ensures names { OnOk result ((lists self.new).state.names ≡ (lists self.old).state.names ++ name ∷ []) }
        ensures past { (lists self.new).state.past ≡ (lists self.old).state.past }
        ensures writer { (lists self.new).state.writer ≡ (lists self.old).state.writer }
        ensures tasks { (s : ℕ) → task_of s (lists self.new).state ≡ task_of s (lists self.old).state }
        ensures settings { OnOk result ((lists self.new).settings ≡ (lists self.old).settings ++ at_first ∷ []) }
        ensures rows { (lists self.new).rows ≡ (lists self.old).rows }
        ensures err { OnErr result (((lists self.new).state.names ≡ (lists self.old).state.names) × ((lists self.new).settings ≡ (lists self.old).settings)) };

    /// Starts the session's next item, with room for the entry by which it ends.
    fn start(&mut self, session: u32, item: Item) -> Result<(), NoMemory>
        requires joined { session < length (lists self.old).state.names }
        requires idle { under_way session (lists self.old).state.past ≡ None }
        requires at_rest { task_of session (lists self.old).state ≡ Idle }
        ensures ok { OnOk result (Adds (Started session (started session (lists self.old).state.past + 1) item) session (lists self.old).state (lists self.new).state) }
        ensures err { OnErr result (Stays session (lists self.old).state (lists self.new).state) }
        ensures settings { (lists self.new).settings ≡ (lists self.old).settings }
        ensures rows { (lists self.new).rows ≡ (lists self.old).rows };

    /// Ends the session's item.
    fn end(&mut self, session: u32, reply: Reply)
        requires joined { session < length (lists self.old).state.names }
        requires may { MayCome (lists self.old).state.past (Ended session (started session (lists self.old).state.past) reply) }
        requires few { (lists self.old).rows + rows_of_reply reply < 2 ^ 63 }
        requires idle { task_of session (lists self.old).state ≡ Idle }
        ensures adds { Adds (Ended session (started session (lists self.old).state.past) reply) session (lists self.old).state (lists self.new).state }
        ensures settings { (lists self.new).settings ≡ (lists self.old).settings }
        ensures rows { (lists self.new).rows ≡ (lists self.old).rows + rows_of_reply reply };

    /// Sets what a statement sets that was done, other than a savepoint of an open transaction.
    fn set(&mut self, session: u32, stmt: &Stmt)
        requires joined { session < length (lists self.old).state.names }
        requires idle { task_of session (lists self.old).state ≡ Idle }
        ensures same { Stays session (lists self.old).state (lists self.new).state }
        ensures settings { (lists self.new).settings ≡ slice_set (lists self.old).settings session (set_by stmt.now 0 false (slice_index_or (lists self.old).settings session at_first)) }
        ensures rows { (lists self.new).rows ≡ (lists self.old).rows };

    /// Keeps a savepoint of the session's open transaction. An `Err` changes nothing.
    fn save(&mut self, session: u32, name: &Bytes) -> Result<(), NoMemory>
        requires joined { session < length (lists self.old).state.names }
        requires is_open { IsOpen session (lists self.old).state.past }
        requires idle { task_of session (lists self.old).state ≡ Idle }
        ensures same { Stays session (lists self.old).state (lists self.new).state }
        ensures ok { OnOk result ((lists self.new).settings ≡ slice_set (lists self.old).settings session (record (slice_index_or (lists self.old).settings session at_first) { saves = saved name.now (length (own session (lists self.old).state.past)) true (slice_index_or (lists self.old).settings session at_first).saves })) }
        ensures err { OnErr result ((lists self.new).settings ≡ (lists self.old).settings) }
        ensures rows { (lists self.new).rows ≡ (lists self.old).rows };

    /// Opens a transaction of this level.
    fn begin(&mut self, session: u32, level: Level) -> Result<(), NoMemory>
        requires joined { session < length (lists self.old).state.names }
        requires may { MayCome (lists self.old).state.past (Begin session (begins (lists self.old).state.past + 1) level) }
        requires idle { task_of session (lists self.old).state ≡ Idle }
        ensures ok { OnOk result (Adds (Begin session (begins (lists self.old).state.past + 1) level) session (lists self.old).state (lists self.new).state) }
        ensures settings { OnOk result ((lists self.new).settings ≡ slice_set (lists self.old).settings session (at_begin (slice_index_or (lists self.old).settings session at_first))) }
        ensures err { OnErr result (Stays session (lists self.old).state (lists self.new).state) }
        ensures unset { OnErr result ((lists self.new).settings ≡ (lists self.old).settings) }
        ensures rows { (lists self.new).rows ≡ (lists self.old).rows };

    /// Takes a read view for the session's transaction.
    fn take_view(&mut self, session: u32) -> Result<(), NoMemory>
        requires joined { session < length (lists self.old).state.names }
        requires is_open { IsOpen session (lists self.old).state.past }
        requires idle { task_of session (lists self.old).state ≡ Idle }
        ensures ok { OnOk result (Adds (View session) session (lists self.old).state (lists self.new).state) }
        ensures err { OnErr result (Stays session (lists self.old).state (lists self.new).state) }
        ensures settings { (lists self.new).settings ≡ (lists self.old).settings }
        ensures rows { (lists self.new).rows ≡ (lists self.old).rows };

    /// Takes the right to write until the session's transaction ends. `Some` names another session that has it.
    fn lock(&mut self, session: u32) -> Option<u32>
        requires joined { session < length (lists self.old).state.names }
        requires is_open { IsOpen session (lists self.old).state.past }
        requires idle { task_of session (lists self.old).state ≡ Idle }
        ensures free { result ≡ writer_without (lists self.old).state.writer session }
        ensures locked { IfNone result (IsNow (lists self.old).state.past session (task_of session (lists self.old).state) (Some session) (lists self.old).state (lists self.new).state) }
        ensures alone { IfNone result ((other : ℕ) → other ≢ session → own other (lists self.old).state.past ≡ []) }
        ensures sound { IsOrdered (lists self.old).state.past }
        ensures held { IfSome result (λ other. ((lists self.old).state.writer ≡ Some other) × (other ≢ session) × IsOpen other (lists self.old).state.past × (other < length (lists self.old).state.names) × Stays session (lists self.old).state (lists self.new).state) }
        ensures settings { (lists self.new).settings ≡ (lists self.old).settings }
        ensures rows { (lists self.new).rows ≡ (lists self.old).rows };

    /// Makes a table in a transaction of its own, which is committed: one call, so that nobody meets a table that isn't.
    /// Where no memory is found nothing is made, and a transaction that was opened for it is rolled back.
    fn make_table(&mut self, session: u32, level: Level, schema: Schema) -> Result<(), NoMemory>
        requires joined { session < length (lists self.old).state.names }
        requires closed { IsClosed session (lists self.old).state.past }
        requires free { (lists self.old).state.writer ≡ None }
        requires idle { task_of session (lists self.old).state ≡ Idle }
        requires storable { IsStorable schema }
        ensures ok { OnOk result (IsNow (table_made session level schema (lists self.old).state.past) session Idle None (lists self.old).state (lists self.new).state) }
        ensures settings { OnOk result ((lists self.new).settings ≡ set_after (lists self.old).settings session) }
        ensures err { OnErr result (MakesNoTable session level (lists self.old) (lists self.new)) }
        ensures rows { (lists self.new).rows ≡ (lists self.old).rows };

    /// Commits the session's transaction, which may write no longer. No change of it lags.
    fn commit(&mut self, session: u32)
        requires joined { session < length (lists self.old).state.names }
        requires may { MayCome (lists self.old).state.past (Committed session) }
        requires idle { task_of session (lists self.old).state ≡ Idle }
        ensures closes { Closes (Committed session) session (lists self.old).state (lists self.new).state }
        ensures settings { (lists self.new).settings ≡ slice_set (lists self.old).settings session (at_end (slice_index_or (lists self.old).settings session at_first)) }
        ensures rows { (lists self.new).rows ≡ (lists self.old).rows };

    /// Acknowledges the session's commit, at a moment of the disk.
    fn ack(&mut self, session: u32, moment: u64)
        requires joined { session < length (lists self.old).state.names }
        requires may { MayCome (lists self.old).state.past (Acked session moment) }
        requires idle { task_of session (lists self.old).state ≡ Idle }
        ensures adds { Adds (Acked session moment) session (lists self.old).state (lists self.new).state }
        ensures settings { (lists self.new).settings ≡ (lists self.old).settings }
        ensures rows { (lists self.new).rows ≡ (lists self.old).rows };

    /// Gives a signal of this name, which stays. An `Err` changes nothing.
    fn signal(&mut self, session: u32, name: Bytes) -> Result<(), NoMemory>
        requires joined { session < length (lists self.old).state.names }
        requires idle { task_of session (lists self.old).state ≡ Idle }
        ensures ok { OnOk result (Adds (Signal name) session (lists self.old).state (lists self.new).state) }
        ensures err { OnErr result (Stays session (lists self.old).state (lists self.new).state) }
        ensures settings { (lists self.new).settings ≡ (lists self.old).settings }
        ensures rows { (lists self.new).rows ≡ (lists self.old).rows };

    /// Ends the rollback of the session's transaction, which may write no longer.
    fn roll_back(&mut self, session: u32)
        requires joined { session < length (lists self.old).state.names }
        requires may { MayCome (lists self.old).state.past (RolledBack session) }
        requires idle { task_of session (lists self.old).state ≡ Idle }
        ensures closes { Closes (RolledBack session) session (lists self.old).state (lists self.new).state }
        ensures settings { (lists self.new).settings ≡ slice_set (lists self.old).settings session (at_end (slice_index_or (lists self.old).settings session at_first)) }
        ensures rows { (lists self.new).rows ≡ (lists self.old).rows };

    /// Begins a search of a table, in the index and the range of a plan. An `Err` changes nothing.
    fn begin_search(
        &mut self,
        session: u32,
        table: u8,
        plan: Plan,
        reading: Reading,
    ) -> Result<(), NoMemory>
        requires joined { session < length (lists self.old).state.names }
        requires is_open { IsOpen session (lists self.old).state.past }
        requires idle { task_of session (lists self.old).state ≡ Idle }
        requires there { (schema : Schema) × (slice_get (created (lists self.old).state.past) table ≡ Some schema) × (plan.which ≤ length schema.keys) }
        requires view { reading ≡ Reading.View → is_some (view_of session (lists self.old).state.past) ≡ true }
        requires newest { reading ≡ Reading.Newest → (lists self.old).state.writer ≡ Some session }
        ensures ok { OnOk result (Turns session (Searching table plan reading) (lists self.old).state (lists self.new).state) }
        ensures err { OnErr result (Stays session (lists self.old).state (lists self.new).state) }
        ensures settings { (lists self.new).settings ≡ (lists self.old).settings }
        ensures rows { (lists self.new).rows ≡ (lists self.old).rows };

    /// Makes one step of the session's search. One that goes on brings it nearer to its end.
    fn search(&mut self, session: u32) -> Searched
        requires joined { session < length (lists self.old).state.names }
        requires searching { (table : ℕ) × (plan : _) × (reading : _) × (task_of session (lists self.old).state ≡ Searching table plan reading) }
        ensures searches { (table : ℕ) (plan : _) (reading : _) → task_of session (lists self.old).state ≡ Searching table plan reading → Searches table plan reading session (lists self.old).state (lists self.new).state result }
        ensures nears { result ≡ Went → IsBelow (counted (places_before session (lists self.new).state)) (counted (places_before session (lists self.old).state)) }
        ensures settings { (lists self.new).settings ≡ (lists self.old).settings }
        ensures rows { (lists self.new).rows ≡ (lists self.old).rows };

    /// The newest rows of a table, committed or not, as they are at this moment: by the index and the range of a plan, or
    /// of the whole clustered index while the keys of some change lag.
    fn read_newest(&mut self, session: u32, table: u8, plan: Plan) -> Result<Rows, NoMemory>
        requires joined { session < length (lists self.old).state.names }
        requires idle { task_of session (lists self.old).state ≡ Idle }
        requires there { (schema : Schema) × (slice_get (created (lists self.old).state.past) table ≡ Some schema) × (plan.which ≤ length schema.keys) }
        ensures same { Stays session (lists self.old).state (lists self.new).state }
        ensures found { IfOk result (λ rows. (writer : ℕ) → ((other : ℕ) → other ≢ writer → own other (lists self.old).state.past ≡ [])
            → AreNewestRows table plan (lists self.old).state.past writer rows) }
        ensures settings { (lists self.new).settings ≡ (lists self.old).settings }
        ensures rows { (lists self.new).rows ≡ (lists self.old).rows };

    /// Begins a change of a row, by the session that may write. An `Err` changes nothing.
    fn begin_change(&mut self, session: u32, change: Change) -> Result<(), NoMemory>
        requires joined { session < length (lists self.old).state.names }
        requires is_open { IsOpen session (lists self.old).state.past }
        requires locked { (lists self.old).state.writer ≡ Some session }
        requires idle { task_of session (lists self.old).state ≡ Idle }
        requires of_row { IsOfRow change }
        requires fits { FitsWell (created (lists self.old).state.past) change }
        ensures ok { OnOk result (Turns session (task_of session (lists self.new).state) (lists self.old).state (lists self.new).state) }
        ensures changing { OnOk result (is_changing (task_of session (lists self.new).state) ≡ true) }
        ensures asked { OnOk result (asked (task_of session (lists self.new).state) ≡ Some change) }
        ensures few { OnOk result (steps_left (task_of session (lists self.new).state) < 2 ^ 70) }
        ensures err { OnErr result (Stays session (lists self.old).state (lists self.new).state) }
        ensures settings { (lists self.new).settings ≡ (lists self.old).settings }
        ensures rows { (lists self.new).rows ≡ (lists self.old).rows };

    /// Makes one step of the session's change. The entry that it may add may come.
    fn change(&mut self, session: u32) -> Changed
        requires joined { session < length (lists self.old).state.names }
        requires locked { (lists self.old).state.writer ≡ Some session }
        requires changing { is_changing (task_of session (lists self.old).state) ≡ true }
        requires may { (change : _) → asked (task_of session (lists self.old).state) ≡ Some change → MayCome (lists self.old).state.past (ChangedEvent session change) }
        requires removes { (change : _) → asked (task_of session (lists self.old).state) ≡ Some change → RemovesOne session (lists self.old).state.past change }
        ensures changes { Changes session (lists self.old).state (lists self.new).state result }
        ensures settings { (lists self.new).settings ≡ (lists self.old).settings }
        ensures rows { (lists self.new).rows ≡ (lists self.old).rows + rows_entered result (task_of session (lists self.old).state) };

    /// Gives up the session's change, which the history doesn't tell yet: it was never made.
    fn stop_change(&mut self, session: u32)
        requires joined { session < length (lists self.old).state.names }
        requires locked { (lists self.old).state.writer ≡ Some session }
        requires asked { (change : _) × (asked (task_of session (lists self.old).state) ≡ Some change) }
        ensures stops { Turns session Idle (lists self.old).state (lists self.new).state }
        ensures settings { (lists self.new).settings ≡ (lists self.old).settings }
        ensures rows { (lists self.new).rows ≡ (lists self.old).rows };

    /// Makes one step by which the session's newest change is taken back, which is one of a row.
    fn undo(&mut self, session: u32) -> Undone
        requires joined { session < length (lists self.old).state.names }
        requires may { MayCome (lists self.old).state.past (UndoneEvent session (length (own session (lists self.old).state.past) - 1)) }
        requires task { MayTakeBack (task_of session (lists self.old).state) }
        ensures takes { TakesBack session (length (own session (lists self.old).state.past) - 1) (lists self.old).state (lists self.new).state result }
        ensures settings { (lists self.new).settings ≡ (lists self.old).settings }
        ensures rows { (lists self.new).rows ≡ (lists self.old).rows };
}
