//! The calls of logged sessions. Each step of a session is one of its statement, of its commit's acknowledgement or of its
//! ending; the entries that it adds are taken over into the log at once.

ghost use Rattle.std.specs.Prelude.{◌≡◌, ◌≢◌, ◌⊎◌, ◌≤◌, ◌<◌, ◌^◌, ◌++◌, ℕ, List, [], ◌∷◌, length, reverse, true, false, None, All, IsTrue, IfOk, OnOk, OnErr};
ghost use Rattle.store_api.specs.Past.{Past};
ghost use Rattle.store_api.specs.Causes.{HasCause};
ghost use Rattle.inno_db.specs.Database.{Database};
ghost use Rattle.inno_model.specs.declared.event.Event.{Event as EventValue};
ghost use Rattle.inno_model.specs.declared.event.Event.TheVariants.{Acked};
ghost use Rattle.sql_grammar.specs.Grammar.{Spells};
ghost use Rattle.sql_history.specs.Legal.{IsLegal, owes_commit};
ghost use Rattle.sql_history.specs.Counts.{has_stopped};
ghost use Rattle.commit_log.specs.Room.{IsLoggable};
ghost use Rattle.commit_log.specs.View.{IsJoined as IsDrafted, IsLogging};
ghost use Rattle.commit_log.specs.DraftsView.{draft_of};
ghost use Rattle.inno_model.specs.Past.{under_way};
ghost use Rattle.durable_engine.specs.Seats.{phase_at, AreSeats as AreStoppedSeats};
ghost use Rattle.durable_engine.specs.StoppedCalls.{is_at_work, has_left};
ghost use Rattle.session_engine.specs.Calls.{AreFirst};
ghost use Rattle.session_engine.specs.Seats.{phase_of};
ghost use Rattle.shared_lists.specs.Tasks.{Idle as TaskIdle};
ghost use Rattle.shared_lists.specs.State.{task_of};
ghost use Rattle.durable_engine.specs.Entering.{MayEnter};

use crate::Seat;
use crate::entering::enter_all;
use commit_log::CommitLog;
use inno_model::{History, Phase};
use inno_types::{Bytes, Item};
use session_engine::SessionEngine;
use shared_lists::SharedLists;
use sql_lists::SqlLists;
use std::alloc::Global;
use std::marker::Model;
use store_api::{Disk, Failed, NoMemory, Progress};

/// Sessions with their log.
#[derive(Drop)]
pub struct LoggedSessions<L: SharedLists> {
    sessions: SessionEngine<L>,
    /// By session: how far it is, and how many items it has started.
    seats: Vec<Seat>,
    log: CommitLog,
}

impl<L: SharedLists> Model for LoggedSessions<L> {
    ghost use Rattle.durable_engine.specs.SessionsState.{State, state_code, AreSeated};

    ghost Value = { State };

    ghost coded = { state_code };

    ghost view = { λ e. record { sessions = e.sessions; seats = e.seats.items; log = e.log } };

    ghost invariant = { λ e. AreSeated e.sessions e.seats.items e.log };
}

impl<L: SharedLists> LoggedSessions<L> {
    ghost use Rattle.session_engine.specs.Seats.{seat_at, since_at, owes};
    ghost use Rattle.session_engine.specs.Calls.{Joins, Starts, StepsBy, Acknowledges, GivesUpInVain, WaitsOn, since_after, Leaves, SameState};
    ghost use Rattle.session_engine.specs.Going.{Nears, NearsLacking};
    ghost use Rattle.session_engine.specs.Places.{HasExactPlaces};
    ghost use Rattle.durable_engine.specs.SessionsState.{IsJoined, IsIdle, IsWorking};
    ghost use Rattle.durable_engine.specs.Calls.{WaitsLong};

    /// Sessions of lists that nobody has joined, with a log of which nobody has a part.
    pub fn new(alloc: Global, lists: SqlLists<L>, log: CommitLog) -> Self
        requires first { (db : Database) × AreFirst db lists × All IsLoggable db.schemas }
        requires idle { (s : ℕ) → task_of s lists ≡ TaskIdle }
        ensures { result ≡ record { sessions = record { lists = lists; seats = [] }; seats = []; log = log } }
    {
        LoggedSessions {
            sessions: SessionEngine::new(alloc, lists),
            seats: Vec::new(alloc),
            log,
        }
    }

    /// What has happened, which is legal. An item whose text is no statement has named its first bad byte.
    pub fn history(&self) -> &History
        ensures names { result.now.names ≡ self.now.sessions.lists.names }
        ensures past { result.now.past ≡ self.now.sessions.lists.past }
        ensures legal { IsLegal Spells self.now.sessions.lists.past }
        ensures exact { HasExactPlaces self.now.sessions.lists.past }
        ensures runs { has_stopped self.now.sessions.lists.past ≡ false }
    {
        self.sessions.history()
    }

    /// Adds a session, whose number is that of the sessions before it.
    pub fn join(&mut self, name: &Bytes) -> Result<u32, NoMemory>
        requires { length self.old.sessions.lists.names < 2 ^ 32 }
        ensures number { IfOk result (λ s. s ≡ length self.old.sessions.lists.names) }
        ensures ok { OnOk result (Joins name.now self.old.sessions self.new.sessions) }
        ensures err { OnErr result (SameState self.old.sessions self.new.sessions) }
        ensures phases { (s : ℕ) → phase_at self.new.seats s ≡ phase_at self.old.seats s }
        ensures kept { (root now : Past) → IsLogging root now self.old.sessions.lists.past self.old.log
            → IsLogging root now self.new.sessions.lists.past self.new.log }
    {
        self.log.join()?;
        self.seats.push(Seat {
            phase: Phase::Idle,
            started: 0,
        })?;
        self.sessions.join(name)
    }

    /// Whether the session has an item under way, or is on its way out.
    pub fn is_working(&self, s: u32) -> bool
        requires { IsJoined s self.now }
        ensures { result ≡ is_at_work (phase_at self.now.seats s) }
    {
        match self.seats[s as usize].phase {
            Phase::Idle | Phase::Left => false,
            Phase::Busy | Phase::Leaving => true,
        }
    }

    /// Whether the session's ending has come to its end. Then no item of it is under way.
    pub fn left(&self, s: u32) -> bool
        requires { IsJoined s self.now }
        ensures told { result ≡ has_left (phase_at self.now.seats s) }
        ensures over { IsTrue result → under_way s self.now.sessions.lists.past ≡ None }
    {
        self.sessions.left(s)
    }

    /// Starts an item of the session. It waits since no moment.
    pub fn start(&mut self, s: u32, item: &Item) -> Result<(), NoMemory>
        requires joined { IsJoined s self.old }
        requires idle { IsIdle s self.old }
        ensures ok { OnOk result (Starts s item.now self.old.sessions self.new.sessions) }
        ensures unstepped { OnOk result (since_at s self.new.sessions ≡ None) }
        ensures err { OnErr result (SameState self.old.sessions self.new.sessions) }
        ensures phase_err { OnErr result (self.new.seats ≡ self.old.seats) }
        ensures phase { OnOk result (phase_at self.new.seats s ≡ phase_of (seat_at self.new.sessions.seats s)) }
        ensures others { (u : ℕ) → u ≢ s → phase_at self.new.seats u ≡ phase_at self.old.seats u }
        ensures kept { (root now : Past) → IsLogging root now self.old.sessions.lists.past self.old.log
            → IsLogging root now self.new.sessions.lists.past self.new.log }
    {
        let before = self.seats[s as usize].started;
        if before == u32::MAX {
            return Err(NoMemory);
        }
        let told = self.sessions.history().events().len();
        self.sessions.start(s, item)?;
        take_over(&mut self.log, s, self.sessions.history(), told);
        self.seats[s as usize] = Seat {
            phase: self.sessions.phase(s),
            started: before + 1,
        };
        Ok(())
    }

    /// Whether the commit of the session's item is yet to be acknowledged. Until then the item makes no step.
    pub fn owes_ack(&self, s: u32) -> bool
        requires { IsJoined s self.now }
        ensures { result ≡ owes (seat_at self.now.sessions.seats s) }
    {
        self.sessions.owes_ack(s)
    }

    /// Acknowledges the commit of the session's item, at the disk's moment. Unless the log is flushed so far, it is flushed
    /// first, for all commits that it has. Where the disk fails, nothing is acknowledged.
    pub fn acknowledge<D: Disk>(&mut self, s: u32, disk: &mut D) -> Result<(), Failed>
        requires joined { IsJoined s self.old }
        requires owed { owes (seat_at self.old.sessions.seats s) ≡ true }
        requires logging { (root : Past) × IsLogging root (D.past disk.old) self.old.sessions.lists.past self.old.log }
        ensures ok { OnOk result (Acknowledges s (D.past disk.new).moment self.old.sessions self.new.sessions) }
        ensures since { OnOk result (since_at s self.new.sessions ≡ None) }
        ensures nears { OnOk result (Nears s Progress.Went self.old.sessions self.new.sessions) }
        ensures err { OnErr result (self.new.sessions ≡ self.old.sessions) }
        ensures phases { self.new.seats ≡ self.old.seats }
        ensures kept { (root : Past) → IsLogging root (D.past disk.old) self.old.sessions.lists.past self.old.log
            → IsLogging root (D.past disk.new) self.new.sessions.lists.past self.new.log }
        ensures cause { HasCause (D.past disk.old).faults (D.past disk.new).faults result }
    {
        self.log.flush_for(s, disk)?;
        let moment = disk.moment();
        self.sessions.acknowledge(s, moment);
        Ok(())
    }

    /// Makes a step of the session's item under way, or of its ending, at a moment in seconds. Where there is no room in the
    /// log for the change that its statement is about to make, the statement gives up.
    pub fn step(&mut self, s: u32, now: u64) -> Progress
        requires joined { IsJoined s self.old }
        requires working { IsWorking s self.old }
        requires acked { owes (seat_at self.old.sessions.seats s) ≡ false }
        ensures steps { StepsBy s result self.old.sessions self.new.sessions }
        ensures nears { Nears s result self.old.sessions self.new.sessions }
        ensures lacks { NearsLacking s result self.old.sessions self.new.sessions }
        ensures since { since_at s self.new.sessions ≡ since_after result now (since_at s self.old.sessions) }
        ensures waits { result ≡ Progress.NotYet → WaitsOn now (since_at s self.old.sessions) }
        ensures waited { GivesUpInVain s now result self.old.sessions }
        ensures long { WaitsLong s now result self.old.sessions.lists.past (since_at s self.old.sessions) }
        ensures was { phase_at self.old.seats s ≡ phase_of (seat_at self.old.sessions.seats s) }
        ensures phase { phase_at self.new.seats s ≡ phase_of (seat_at self.new.sessions.seats s) }
        ensures others { (u : ℕ) → u ≢ s → phase_at self.new.seats u ≡ phase_at self.old.seats u }
        ensures kept { (root past : Past) → IsLogging root past self.old.sessions.lists.past self.old.log
            → IsLogging root past self.new.sessions.lists.past self.new.log }
    {
        let wanted = self.sessions.wants_room(s);
        if !has_room(&mut self.log, s, wanted) {
            self.sessions.give_up(s);
            self.seats[s as usize].phase = self.sessions.phase(s);
            return Progress::NoMemory;
        }
        let told = self.sessions.history().events().len();
        let progress = self.sessions.step(s, now);
        take_over(&mut self.log, s, self.sessions.history(), told);
        self.seats[s as usize].phase = self.sessions.phase(s);
        progress
    }

    /// Begins the session's ending, whose steps `step` makes.
    pub fn leave(&mut self, s: u32)
        requires joined { IsJoined s self.old }
        requires idle { IsIdle s self.old }
        ensures leaves { Leaves s self.old.sessions self.new.sessions }
        ensures phase { phase_at self.new.seats s ≡ Phase.Leaving }
        ensures others { (u : ℕ) → u ≢ s → phase_at self.new.seats u ≡ phase_at self.old.seats u }
        ensures kept { (root now : Past) → IsLogging root now self.old.sessions.lists.past self.old.log
            → IsLogging root now self.new.sessions.lists.past self.new.log }
    {
        self.sessions.leave(s);
        self.seats[s as usize].phase = self.sessions.phase(s);
    }

    /// Brings every commit onto the disk: the last one of any session could be acknowledged then.
    pub fn flush<D: Disk>(&mut self, disk: &mut D) -> Result<(), Failed>
        ensures same { self.new.sessions ≡ self.old.sessions }
        ensures whole { OnOk result ((root : Past) (s : ℕ) → IsLogging root (D.past disk.old) self.old.sessions.lists.past self.old.log
            → IsLogging root (D.past disk.new) (Acked s (D.past disk.new).moment ∷ self.old.sessions.lists.past) self.new.log) }
        ensures phases { self.new.seats ≡ self.old.seats }
        ensures kept { (root : Past) → IsLogging root (D.past disk.old) self.old.sessions.lists.past self.old.log
            → IsLogging root (D.past disk.new) self.new.sessions.lists.past self.new.log }
        ensures cause { HasCause (D.past disk.old).faults (D.past disk.new).faults result }
    {
        self.log.flush(disk)
    }

    /// The history, and how far each session is, for an engine that stops here. Each item that is under way has
    /// changed what one may have changed that breaks off.
    pub fn into_parts(self) -> (History, Vec<Seat>)
        ensures names { result.0.names ≡ self.sessions.lists.names }
        ensures past { result.0.past ≡ self.sessions.lists.past }
        ensures phases { result.1.items ≡ self.seats }
        ensures legal { IsLegal Spells self.sessions.lists.past }
        ensures exact { HasExactPlaces self.sessions.lists.past }
        ensures opened { self.sessions.lists.past ≢ [] }
        ensures paid { owes_commit self.sessions.lists.past ≡ None }
        ensures runs { has_stopped self.sessions.lists.past ≡ false }
        ensures seated { AreStoppedSeats self.sessions.lists.names self.sessions.lists.past self.seats }
    {
        let LoggedSessions {
            sessions,
            seats,
            log: _,
        } = self;
        (sessions.into_history(), seats)
    }
}

/// Whether there is room for one change more of the session in the log, or none is wanted.
fn has_room(log: &mut CommitLog, session: u32, wanted: bool) -> bool
    requires { IsDrafted session log.old }
    ensures room { result ≡ true → (wanted ≡ false) ⊎ ((draft_of session log.new.drafts).ready ≡ true) }
    ensures lacks { result ≡ false → wanted ≡ true }
    ensures joined { length log.new.drafts ≡ length log.old.drafts }
    ensures kept { (root now : Past) (past : List EventValue) → IsLogging root now past log.old → IsLogging root now past log.new }
{
    if !wanted {
        return true;
    }
    log.reserve(session).is_ok()
}

/// Takes over into the log what a session has added since its history had so many entries.
fn take_over(log: &mut CommitLog, session: u32, history: &History, told: usize)
    requires joined { IsDrafted session log.old }
    requires may { (added past : List EventValue) → history.now.past ≡ added ++ past → length past ≡ told
        → MayEnter session (draft_of session log.old.drafts).ready (reverse added) }
    requires within { told ≤ length history.now.past }
    ensures joined { length log.new.drafts ≡ length log.old.drafts }
    ensures kept { (root now : Past) (added past : List EventValue) → history.now.past ≡ added ++ past → length past ≡ told
        → IsLogging root now past log.old → IsLogging root now history.now.past log.new }
{
    enter_all(log, session, &history.events()[told..]);
}
