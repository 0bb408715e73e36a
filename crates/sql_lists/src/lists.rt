//! The lists themselves, and the entries that statements add.
//! An engine's opening makes them; statements and the session engine change them by these calls alone.

ghost use Rattle.std.specs.Prelude.{◌≡◌, ◌≢◌, ℕ, ◌+◌, ◌-◌, ◌<◌, ◌≤◌, ◌^◌, [], ◌∷◌, ◌++◌, length, true, false, is_some, OnOk, OnErr, IfOk, IfSome, IfNone, Some, None, slice_get};
ghost use Rattle.inno_db.specs.declared.limits.TheConstants.{MOST_TABLES};
ghost use Rattle.inno_types.specs.Order.{IsBelow};
ghost use Rattle.inno_types.specs.declared.value.Schema.{Schema};
ghost use Rattle.inno_types.specs.declared.reply.Reply.TheVariants.{Done};
ghost use Rattle.inno_types.specs.declared.stmt.Stmt.TheVariants.{Savepoint as SavepointStmt};
ghost use Rattle.inno_types.specs.declared.lock.Level.TheVariants.{Serializable};
ghost use Rattle.inno_model.specs.declared.event.Event.TheVariants.{Begin, Started, View, Ended, Committed, Acked, RolledBack, Signal};
ghost use Rattle.inno_model.specs.Past.{under_way, level, own, started, begins, view_of, txn, IsOpen};
ghost use Rattle.sql_grammar.specs.Grammar.{Spells};
ghost use Rattle.sql_history.specs.Items.{Asks};
ghost use Rattle.sql_history.specs.Settings.{HasSet};
ghost use Rattle.sql_history.specs.Counts.{has_stopped, last_moment, rows_kept, rows_of_reply, most_rows};
ghost use Rattle.sql_history.specs.Legal.{IsLegal, MayBegin, MayView, MayChange, MayUndo, MayCommit, MayRollBack, MaySignal, is_leaving, owes_commit};
ghost use Rattle.store_api.specs.declared.stepped.Stepped.TheVariants.{Went};
ghost use Rattle.law_stored_rows.specs.Storable.{IsStorable};
ghost use Rattle.law_past_agreement.specs.Order.{created, IsOfRow, IsTabled, IsUndoable, IsOrdered};
ghost use Rattle.shared_lists.specs.Fitting.{FitsWell, FitsThen, RemovesOne};
ghost use Rattle.shared_lists.specs.Tasks.{Idle, Searching, is_changing, asked, steps_left, MayTakeBack};
ghost use Rattle.shared_lists.specs.State.{IsFirst, IsNow, Adds, Closes, Turns, Stays, task_of, places_before, counted};
ghost use Rattle.law_past_agreement.specs.Slots.{writer_without};
ghost use Rattle.shared_lists.specs.Steps.{Searches, AreNewestRows, Changes, TakesBack};
ghost use Rattle.sql_lists.specs.Kept.{MayReply, is_of_signal, OwesAck, SetsQuietly, AreStanding, IsInOrder};
ghost use Rattle.shared_lists.specs.Tables.{table_made};
ghost use Rattle.sql_lists.specs.Tables.{MayMake, MakesNone};
ghost use Rattle.sql_lists.specs.Steps.{open_txn, plain_edge};

use crate::advance::plain_edge;
use inno_db::Change;
use inno_model::History;
use inno_types::{Bytes, Edges, Item, Level, Listed, Reply, Rows, Schema, Stmt};
use shared_lists::{Changed, Reading, Searched, SharedLists, Undone};
use sql_history::SessionSettings;
use sql_plan::Plan;
use std::alloc::Global;
use std::marker::Model;
use store_api::{MOST_ROWS, NoMemory};

#[derive(Drop)]
pub struct SqlLists<L: SharedLists> {
    alloc: Global,
    lists: L,
}

impl<L: SharedLists> Model for SqlLists<L> {
    ghost use Rattle.shared_lists.specs.State.{State, state_code};

    ghost Value = { State };

    ghost coded = { state_code };

    ghost use Rattle.sql_lists.specs.Kept.{IsKept};

    ghost view = { λ l. (L.lists l.lists).state };

    ghost invariant = { λ l. IsKept (L.lists l.lists).state.names (L.lists l.lists).state.past (L.lists l.lists).settings (L.lists l.lists).rows };
}

impl<L: SharedLists> SqlLists<L> {
    /// Lists of a database, whatever keeps them. Nobody has joined.
    pub fn new(alloc: Global, lists: L) -> Self
        requires first { IsFirst (L.lists lists) }
        ensures same { result ≡ (L.lists lists).state }
    {
        SqlLists { alloc, lists }
    }

    /// The history, which is legal.
    pub fn history(&self) -> &History
        ensures names { result.now.names ≡ self.now.names }
        ensures past { result.now.past ≡ self.now.past }
        ensures legal { IsLegal Spells self.now.past }
        ensures runs { has_stopped self.now.past ≡ false }
        ensures opened { self.now.past ≢ [] }
        ensures paid { owes_commit self.now.past ≡ None }
        ensures sound { IsOrdered self.now.past }
        ensures fits { FitsThen self.now.past }
        ensures tables { AreStanding self.now.past }
        ensures within { rows_kept self.now.past ≤ most_rows }
        ensures ordered { IsInOrder self.now.past }
    {
        self.lists.history()
    }

    /// The tables, by number. Each session has all of them, and changes were of these and fitted them.
    pub fn schemas(&self) -> &Listed<Schema>
        ensures are { result.now ≡ created self.now.past }
        ensures tables { AreStanding self.now.past }
        ensures ordered { IsInOrder self.now.past }
        ensures sound { IsOrdered self.now.past }
        ensures fits { FitsThen self.now.past }
    {
        // that each change fitted its tables is what the lists say of their history
        let _ = self.lists.history();
        self.lists.schemas()
    }

    /// The level of the session's open transaction. Without one no changes stand.
    pub fn level(&self, session: u32) -> Option<Level>
        requires { session < length self.now.names }
        ensures level { result ≡ level session self.now.past }
        ensures closed { level session self.now.past ≡ None → own session self.now.past ≡ [] }
    {
        self.lists.level(session)
    }

    /// Whether the session's open transaction has a view.
    pub fn has_view(&self, session: u32) -> bool
        requires joined { session < length self.now.names }
        requires is_open { IsOpen session self.now.past }
        ensures { result ≡ is_some (view_of session self.now.past) }
    {
        self.lists.has_view(session)
    }

    /// How many changes of the session's open transaction stand.
    pub fn change_count(&self, session: u32) -> usize
        requires { session < length self.now.names }
        ensures { result ≡ length (own session self.now.past) }
    {
        self.lists.change_count(session)
    }

    /// The session that may write. No other one has changes that stand.
    pub fn writer(&self) -> Option<u32>
        ensures told { result ≡ self.now.writer }
        ensures nobody { IfNone result ((s : ℕ) → own s self.now.past ≡ []) }
        ensures alone { IfSome result (λ w. (w < length self.now.names) × IsOpen w self.now.past × ((s : ℕ) → s ≢ w → own s self.now.past ≡ [])) }
    {
        self.lists.writer()
    }

    /// The history, and nothing else.
    pub fn into_history(self) -> History
        ensures names { result.names ≡ self.names }
        ensures past { result.past ≡ self.past }
        ensures legal { IsLegal Spells self.past }
        ensures runs { has_stopped self.past ≡ false }
        ensures opened { self.past ≢ [] }
        ensures paid { owes_commit self.past ≡ None }
    {
        let SqlLists { lists, .. } = self;
        lists.into_history()
    }

    /// What the session has set.
    pub fn setting(&self, session: u32) -> &SessionSettings
        requires { session < length self.now.names }
        ensures { HasSet Spells session self.now.past result.now }
    {
        self.lists.setting(session)
    }

    /// How many rows the history would hold with so many more, where these are too many.
    pub fn overfull(&self, more: u64) -> Option<u64>
        requires { more < 2 ^ 63 }
        ensures fits { IfNone result (rows_kept self.now.past + more ≤ most_rows) }
        ensures many { IfSome result (λ rows. (most_rows < rows) × (rows ≡ rows_kept self.now.past + more)) }
    {
        let rows = self.lists.rows() + more;
        if rows > MOST_ROWS { Some(rows) } else { None }
    }

    /// The edge by which the session waits for another one's transaction.
    pub fn edge_to(&self, session: u32, by: u32) -> Result<Edges, NoMemory>
        requires joined { (session < length self.now.names) × (by < length self.now.names) }
        requires is_open { IsOpen by self.now.past }
        ensures { IfOk result (λ edges. edges ≡ plain_edge (open_txn session self.now.past) (txn by self.now.past) ∷ []) }
    {
        let waiter = if self.lists.level(session).is_some() {
            self.lists.txn_of(session)
        } else {
            0
        };
        plain_edge(self.alloc, waiter, self.lists.txn_of(by))
    }

    /// Another session, which has set nothing. An `Err` changes nothing that a contract sees.
    pub fn join(&mut self, name: Bytes) -> Result<u32, NoMemory>
        requires { length self.old.names < 2 ^ 32 }
        ensures number { IfOk result (λ session. session ≡ length self.old.names) }
        ensures names { OnOk result (self.new.names ≡ self.old.names ++ name ∷ []) }
        ensures past { self.new.past ≡ self.old.past }
        ensures writer { self.new.writer ≡ self.old.writer }
        ensures tasks { (s : ℕ) → task_of s self.new ≡ task_of s self.old }
        ensures err { OnErr result (self.new.names ≡ self.old.names) }
    {
        self.lists.join(name)
    }

    /// Starts the session's next item. An `Err` changes nothing.
    pub fn start(&mut self, session: u32, item: Item) -> Result<(), NoMemory>
        requires joined { session < length self.old.names }
        requires idle { under_way session self.old.past ≡ None }
        requires stays { is_leaving session self.old.past ≡ false }
        requires at_rest { task_of session self.old ≡ Idle }
        ensures ok { OnOk result (Adds (Started session (started session self.old.past + 1) item) session self.old self.new) }
        ensures err { OnErr result (Stays session self.old self.new) }
    {
        self.lists.start(session, item)
    }

    /// Ends the session's item with a reply that is no Done.
    pub fn end(&mut self, session: u32, reply: Reply)
        requires joined { session < length self.old.names }
        requires may { MayReply session reply self.old.past }
        requires not_done { reply ≢ Done }
        requires idle { task_of session self.old ≡ Idle }
        ensures { Adds (Ended session (started session self.old.past) reply) session self.old self.new }
    {
        self.lists.end(session, reply);
    }

    /// Ends the session's item, whose statement was done, and sets what that sets. A savepoint in an open transaction is
    /// kept by `end_savepoint`.
    pub fn end_done(&mut self, session: u32, stmt: &Stmt)
        requires joined { session < length self.old.names }
        requires may { MayReply session Done self.old.past }
        requires asked { Asks Spells session stmt.now self.old.past }
        requires quiet { SetsQuietly stmt.now session self.old.past }
        requires idle { task_of session self.old ≡ Idle }
        ensures { Adds (Ended session (started session self.old.past) Done) session self.old self.new }
    {
        self.lists.set(session, stmt);
        self.lists.end(session, Reply::Done);
    }

    /// Keeps a savepoint of the session's open transaction, and ends the item. An `Err` changes nothing.
    pub fn end_savepoint(&mut self, session: u32, name: &Bytes) -> Result<(), NoMemory>
        requires joined { session < length self.old.names }
        requires may { MayReply session Done self.old.past }
        requires asked { Asks Spells session (SavepointStmt name.now) self.old.past }
        requires is_open { IsOpen session self.old.past }
        requires idle { task_of session self.old ≡ Idle }
        ensures ok { OnOk result (Adds (Ended session (started session self.old.past) Done) session self.old self.new) }
        ensures err { OnErr result (Stays session self.old self.new) }
    {
        self.lists.save(session, name)?;
        self.lists.end(session, Reply::Done);
        Ok(())
    }

    /// Opens a transaction of this level. An `Err` changes nothing.
    pub fn begin(&mut self, session: u32, level: Level) -> Result<(), NoMemory>
        requires joined { session < length self.old.names }
        requires may { MayBegin Spells session (begins self.old.past + 1) level self.old.past }
        requires idle { task_of session self.old ≡ Idle }
        ensures ok { OnOk result (Adds (Begin session (begins self.old.past + 1) level) session self.old self.new) }
        ensures err { OnErr result (Stays session self.old self.new) }
    {
        self.lists.begin(session, level)
    }

    /// Takes a read view for the session's transaction. An `Err` changes nothing.
    pub fn take_view(&mut self, session: u32) -> Result<(), NoMemory>
        requires joined { session < length self.old.names }
        requires may { MayView Spells session self.old.past }
        requires is_open { IsOpen session self.old.past }
        requires unlocked { level session self.old.past ≢ Some Serializable }
        requires idle { task_of session self.old ≡ Idle }
        ensures ok { OnOk result (Adds (View session) session self.old self.new) }
        ensures err { OnErr result (Stays session self.old self.new) }
    {
        self.lists.take_view(session)
    }

    /// Takes the right to write until the session's transaction ends. `Some` names another session that has it.
    pub fn lock(&mut self, session: u32) -> Option<u32>
        requires joined { session < length self.old.names }
        requires is_open { IsOpen session self.old.past }
        requires idle { task_of session self.old ≡ Idle }
        ensures free { result ≡ writer_without self.old.writer session }
        ensures locked { IfNone result (IsNow self.old.past session (task_of session self.old) (Some session) self.old self.new) }
        ensures alone { IfNone result ((other : ℕ) → other ≢ session → own other self.old.past ≡ []) }
        ensures sound { IsOrdered self.old.past }
        ensures held { IfSome result (λ other. (self.old.writer ≡ Some other) × (other ≢ session) × IsOpen other self.old.past × (other < length self.old.names) × Stays session self.old self.new) }
    {
        self.lists.lock(session)
    }

    /// Makes a table in a transaction of its own, which is committed: nobody meets a table that isn't. Where no memory is
    /// found nothing is made, and a transaction that was opened for it is rolled back.
    /// MySQL 8.0 Reference Manual, "Atomic Data Definition Statement Support".
    pub fn make_table(&mut self, session: u32, level: Level, schema: Schema) -> Result<(), NoMemory>
        requires joined { session < length self.old.names }
        requires may { MayMake session level schema self.old.past }
        requires free { self.old.writer ≡ None }
        requires few { length (created self.old.past) < MOST_TABLES }
        requires idle { task_of session self.old ≡ Idle }
        requires storable { IsStorable schema }
        ensures ok { OnOk result (IsNow (table_made session level schema self.old.past) session Idle None self.old self.new) }
        ensures err { OnErr result (MakesNone session level self.old self.new) }
    {
        self.lists.make_table(session, level, schema)
    }

    /// Begins a search of a table, in the index and the range of a plan. An `Err` changes nothing.
    pub fn begin_search(
        &mut self,
        session: u32,
        table: u8,
        plan: Plan,
        reading: Reading,
    ) -> Result<(), NoMemory>
        requires joined { session < length self.old.names }
        requires is_open { IsOpen session self.old.past }
        requires idle { task_of session self.old ≡ Idle }
        requires there { (schema : Schema) × (slice_get (created self.old.past) table ≡ Some schema) × (plan.which ≤ length schema.keys) }
        requires view { reading ≡ Reading.View → is_some (view_of session self.old.past) ≡ true }
        requires newest { reading ≡ Reading.Newest → self.old.writer ≡ Some session }
        ensures ok { OnOk result (Turns session (Searching table plan reading) self.old self.new) }
        ensures err { OnErr result (Stays session self.old self.new) }
    {
        self.lists.begin_search(session, table, plan, reading)
    }

    /// Makes one step of the session's search. One that goes on brings it nearer to its end.
    pub fn search(&mut self, session: u32) -> Searched
        requires joined { session < length self.old.names }
        requires searching { (table : ℕ) × (plan : _) × (reading : _) × (task_of session self.old ≡ Searching table plan reading) }
        ensures searches { (table : ℕ) (plan : _) (reading : _) → task_of session self.old ≡ Searching table plan reading → Searches table plan reading session self.old self.new result }
        ensures nears { result ≡ Went → IsBelow (counted (places_before session self.new)) (counted (places_before session self.old)) }
    {
        self.lists.search(session)
    }

    /// The newest rows of a table, committed or not, as they are at this moment: by the index and the range of a plan, or
    /// of the whole clustered index while the keys of some change lag.
    pub fn read_newest(&mut self, session: u32, table: u8, plan: Plan) -> Result<Rows, NoMemory>
        requires joined { session < length self.old.names }
        requires idle { task_of session self.old ≡ Idle }
        requires there { (schema : Schema) × (slice_get (created self.old.past) table ≡ Some schema) × (plan.which ≤ length schema.keys) }
        ensures same { Stays session self.old self.new }
        ensures found { IfOk result (λ rows. (writer : ℕ) → ((other : ℕ) → other ≢ writer → own other self.old.past ≡ []) → AreNewestRows table plan self.old.past writer rows) }
    {
        self.lists.read_newest(session, table, plan)
    }

    /// Begins a change of a row, by the session that may write. An `Err` changes nothing.
    pub fn begin_change(&mut self, session: u32, change: Change) -> Result<(), NoMemory>
        requires joined { session < length self.old.names }
        requires is_open { IsOpen session self.old.past }
        requires locked { self.old.writer ≡ Some session }
        requires idle { task_of session self.old ≡ Idle }
        requires of_row { IsOfRow change }
        requires fits { FitsWell (created self.old.past) change }
        ensures ok { OnOk result (Turns session (task_of session self.new) self.old self.new) }
        ensures changing { OnOk result (is_changing (task_of session self.new) ≡ true) }
        ensures asked { OnOk result (asked (task_of session self.new) ≡ Some change) }
        ensures few { OnOk result (steps_left (task_of session self.new) < 2 ^ 70) }
        ensures err { OnErr result (Stays session self.old self.new) }
    {
        self.lists.begin_change(session, change)
    }

    /// Makes one step of the session's change, by the session that may write. The change may come by the rules of SQL
    /// until the history tells it.
    pub fn change(&mut self, session: u32) -> Changed
        requires joined { session < length self.old.names }
        requires locked { self.old.writer ≡ Some session }
        requires changing { is_changing (task_of session self.old) ≡ true }
        requires alone { (other : ℕ) → other ≢ session → own other self.old.past ≡ [] }
        requires may { (change : _) → asked (task_of session self.old) ≡ Some change → MayChange Spells session change self.old.past × IsTabled (length (created self.old.past)) change × IsOfRow change }
        requires removes { (change : _) → asked (task_of session self.old) ≡ Some change → RemovesOne session self.old.past change }
        ensures changes { Changes session self.old self.new result }
    {
        self.lists.change(session)
    }

    /// Gives up the session's change, which the history doesn't tell yet: it was never made.
    pub fn stop_change(&mut self, session: u32)
        requires joined { session < length self.old.names }
        requires locked { self.old.writer ≡ Some session }
        requires asked { (change : _) × (asked (task_of session self.old) ≡ Some change) }
        ensures stops { Turns session Idle self.old self.new }
    {
        self.lists.stop_change(session);
    }

    /// Makes one step by which the session's newest change is taken back, which is one of a row.
    pub fn undo(&mut self, session: u32) -> Undone
        requires joined { session < length self.old.names }
        requires may { MayUndo Spells session (length (own session self.old.past) - 1) self.old.past }
        requires of_row { IsUndoable (length (own session self.old.past) - 1) (own session self.old.past) }
        requires task { MayTakeBack (task_of session self.old) }
        ensures takes { TakesBack session (length (own session self.old.past) - 1) self.old self.new result }
    {
        self.lists.undo(session)
    }

    /// Commits the session's transaction, which may write no longer.
    pub fn commit(&mut self, session: u32)
        requires joined { session < length self.old.names }
        requires may { MayCommit Spells session self.old.past }
        requires idle { task_of session self.old ≡ Idle }
        ensures { Closes (Committed session) session self.old self.new }
    {
        self.lists.commit(session);
    }

    /// Acknowledges the session's commit, at a moment that no earlier acknowledgement lies behind.
    pub fn ack(&mut self, session: u32, moment: u64)
        requires joined { session < length self.old.names }
        requires may { OwesAck session self.old.past }
        requires later { last_moment self.old.past ≤ moment }
        requires idle { task_of session self.old ≡ Idle }
        ensures { Adds (Acked session moment) session self.old self.new }
    {
        self.lists.ack(session, moment);
    }

    /// Ends an item that has given a signal, or has awaited one that was given. It sets nothing.
    pub fn end_signal(&mut self, session: u32)
        requires joined { session < length self.old.names }
        requires may { MayReply session Done self.old.past }
        requires asked { is_of_signal (under_way session self.old.past) ≡ true }
        requires idle { task_of session self.old ≡ Idle }
        ensures { Adds (Ended session (started session self.old.past) Done) session self.old self.new }
    {
        self.lists.end(session, Reply::Done);
    }

    /// Gives the signal that the session's item asks for. An `Err` changes nothing.
    pub fn signal(&mut self, session: u32, name: Bytes) -> Result<(), NoMemory>
        requires joined { session < length self.old.names }
        requires may { MaySignal name self.old.past }
        requires idle { task_of session self.old ≡ Idle }
        ensures ok { OnOk result (Adds (Signal name) session self.old self.new) }
        ensures err { OnErr result (Stays session self.old self.new) }
    {
        self.lists.signal(session, name)
    }

    /// Ends the rollback of the session's transaction, which may write no longer.
    pub fn roll_back(&mut self, session: u32)
        requires joined { session < length self.old.names }
        requires may { MayRollBack Spells session self.old.past }
        requires idle { task_of session self.old ≡ Idle }
        ensures { Closes (RolledBack session) session self.old self.new }
    {
        self.lists.roll_back(session);
    }
}
