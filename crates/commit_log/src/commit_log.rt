//! The log of an engine's commits.
//! A mount (`engine`) makes one, and `durable_engine` alone calls it from then on. Only its flushes meet the disk.

ghost use Rattle.std.specs.Prelude.{◌≡◌, ◌+◌, ◌<◌, ◌≤◌, ℕ, List, [], ◌∷◌, length, nat_le, slice_set, true, false, IfOk, OnOk, OnErr};
ghost use Rattle.inno_db.specs.Database.{Database};
ghost use Rattle.inno_model.specs.declared.event.Event.{Event as EventValue};
ghost use Rattle.inno_model.specs.declared.event.Event.TheVariants.{Opened, Acked};
ghost use Rattle.inno_model.specs.Past.{begins_txn};
ghost use Rattle.store_api.specs.Past.{Past};
ghost use Rattle.store_api.specs.Causes.{HasCause};
ghost use Rattle.commit_log.specs.DraftsView.{draft_of};
ghost use Rattle.law_crashes.specs.Since.{IsMounted};
ghost use Rattle.commit_log.specs.View.{due_of, IsEntryOf, IsJoined, IsLogging, IsReady, is_commit, is_acknowledgement};

use crate::Drafts;
use crate::redraft::redraft;
use inno_model::Event;
use redo_log::Log;
use std::alloc::Global;
use std::marker::Model;
use store_api::{Disk, Failed, NoMemory};

/// The log, the drafts of all sessions, and their dues.
#[derive(Drop)]
pub struct CommitLog {
    log: Log,
    drafts: Drafts,
    /// By session: up to which LSN the log has to be flushed before its last commit may be acknowledged.
    dues: Vec<u64>,
    /// The last LSN that the log had when it was opened.
    begun: u64,
}

impl Model for CommitLog {
    ghost use Rattle.commit_log.specs.View.{CommitView, IsKept};

    ghost Value = { CommitView };

    ghost invariant = { λ l. IsKept l.log l.drafts l.dues.items l.begun };

    ghost view = { λ l. record { log = l.log; drafts = l.drafts; dues = l.dues.items; begun = l.begun } };
}

impl CommitLog {
    /// The log of an engine that goes on from a mount, at this block and with this LSN. Nobody has joined.
    pub fn new(alloc: Global, run: u64, block: u64, next: u64) -> Result<CommitLog, NoMemory>
        requires { 0 < next }
        ensures logging { IfOk result (λ log. (root now : Past) (db : Database) → IsMounted root now run block next db → IsLogging root now (Opened db ∷ []) log) }
        ensures nobody { IfOk result (λ log. log.drafts ≡ []) }
    {
        Ok(CommitLog {
            log: Log::new(alloc, run, block, next)?,
            drafts: Drafts::new(alloc),
            dues: Vec::new(alloc),
            begun: next - 1,
        })
    }

    /// One session more, which has changed nothing. An `Err` changes nothing that a contract sees.
    pub fn join(&mut self) -> Result<(), NoMemory>
        ensures joined { OnOk result (length self.new.drafts ≡ length self.old.drafts + 1) }
        ensures err { OnErr result (self.new.drafts ≡ self.old.drafts) }
        ensures kept { (root now : Past) (past : List EventValue) → IsLogging root now past self.old → IsLogging root now past self.new }
    {
        self.dues.push(self.begun)?;
        self.drafts.join()
    }

    /// Takes room for one change more of a session, before it is made. An `Err` changes nothing that a contract sees.
    pub fn reserve(&mut self, session: u32) -> Result<(), NoMemory>
        requires { IsJoined session self.old }
        ensures ready { OnOk result ((draft_of session self.new.drafts).ready ≡ true) }
        ensures joined { length self.new.drafts ≡ length self.old.drafts }
        ensures kept { (root now : Past) (past : List EventValue) → IsLogging root now past self.old → IsLogging root now past self.new }
    {
        self.drafts.reserve(session, &mut self.log)
    }

    /// Takes over an entry that the session has added to the history, a signal too: its changes go to its draft, and a commit's to the log.
    /// It takes no memory.
    pub fn enter(&mut self, session: u32, entry: &Event)
        requires joined { IsJoined session self.old }
        requires mine { IsEntryOf session entry.now }
        requires unacked { is_acknowledgement entry.now ≡ false }
        requires ready { IsReady session entry.now self.old.drafts }
        ensures joined { length self.new.drafts ≡ length self.old.drafts }
        // The room that was taken for a change outlasts the opening of the transaction that makes it.
        ensures room_stays { begins_txn entry.now ≡ true → (draft_of session self.new.drafts).ready ≡ (draft_of session self.old.drafts).ready }
        ensures kept { (root now : Past) (past : List EventValue) → IsLogging root now past self.old → IsLogging root now (entry.now ∷ past) self.new }
    {
        if let Event::Committed { .. } = entry {
            let due = self.drafts.commit(session, &mut self.log);
            set_due(&mut self.dues, session, due);
        } else {
            redraft(&mut self.drafts, session, entry);
        }
    }

    /// Sees to it that the session's last commit may be acknowledged: unless the log is flushed as far as that needs it, it is
    /// flushed, for every commit that was logged.
    pub fn flush_for<D: Disk>(&mut self, session: u32, disk: &mut D) -> Result<(), Failed>
        requires { IsJoined session self.old }
        ensures acknowledges { OnOk result ((root now : Past) (past : List EventValue) (moment : ℕ) → moment ≡ now.moment
            → IsLogging root now past self.new → IsLogging root now (Acked session moment ∷ past) self.new) }
        ensures kept { (root : Past) (past : List EventValue) → IsLogging root (D.past disk.old) past self.old → IsLogging root (D.past disk.new) past self.new }
        ensures joined { self.new.drafts ≡ self.old.drafts }
        ensures cause { HasCause (D.past disk.old).faults (D.past disk.new).faults result }
    {
        if self.is_flushed_for(session) {
            return Ok(());
        }
        self.flush(disk)
    }

    /// Whether the log is flushed as far as the session's last commit needs it.
    fn is_flushed_for(&self, session: u32) -> bool
        requires { IsJoined session self.now }
        ensures { result ≡ nat_le (due_of session self.now) self.now.log.flushed }
    {
        self.dues[session as usize] <= self.log.flushed()
    }

    /// Brings all groups onto the disk, in one write and a sync: for every commit that was logged.
    pub fn flush<D: Disk>(&mut self, disk: &mut D) -> Result<(), Failed>
        ensures kept { (root : Past) (past : List EventValue) → IsLogging root (D.past disk.old) past self.old → IsLogging root (D.past disk.new) past self.new }
        ensures flushed { OnOk result ((s : ℕ) → due_of s self.new ≤ self.new.log.flushed) }
        ensures joined { self.new.drafts ≡ self.old.drafts }
        ensures cause { HasCause (D.past disk.old).faults (D.past disk.new).faults result }
    {
        self.log.flush(disk)
    }
}

fn set_due(dues: &mut Vec<u64>, session: u32, due: u64)
    requires { session < length dues.old.items }
    ensures { dues.new.items ≡ slice_set dues.old.items session due }
{
    dues[session as usize] = due;
}
