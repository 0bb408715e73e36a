//! The calls of the engine: its sessions run, or they are those of an engine that has stopped.
//! A mount (`engine`) makes one. It meets its disk in `step` and `close` alone.

ghost use Rattle.std.specs.Prelude.{◌≡◌, ◌≢◌, ◌<◌, ◌≤◌, ◌^◌, ℕ, [], length, true, false, None, All, IsTrue, IfOk, IfErr, IfSome, OnOk, OnErr};
ghost use Rattle.store_api.specs.Causes.{Rose};
ghost use Rattle.inno_db.specs.Database.{Database};
ghost use Rattle.inno_model.specs.Past.{under_way};
ghost use Rattle.sql_grammar.specs.Grammar.{Spells};
ghost use Rattle.sql_history.specs.Legal.{IsLegal};
ghost use Rattle.sql_history.specs.Counts.{has_stopped};
ghost use Rattle.shared_lists.specs.Tasks.{Idle as TaskIdle};
ghost use Rattle.shared_lists.specs.State.{task_of};
ghost use Rattle.commit_log.specs.Room.{IsLoggable};
ghost use Rattle.commit_log.specs.View.{IsLogging};
ghost use Rattle.durable_engine.specs.StoppedCalls.{is_at_work, has_left};
ghost use Rattle.durable_engine.specs.Seats.{phase_at};
ghost use Rattle.session_engine.specs.Calls.{AreFirst};

use crate::parts::Core;
use crate::root::Root;
use crate::stepping::{start_stopped, step_of};
use crate::{LoggedSessions, StoppedSessions};
use commit_log::CommitLog;
use inno_model::History;
use inno_types::{Bytes, Cause, Item};
use shared_lists::SharedLists;
use sql_lists::SqlLists;
use std::alloc::Global;
use std::marker::{Model, PhantomData};
use std::mem;
use store_api::{Disk, Failed, NoMemory, Progress};

/// An engine over a disk, with the files of a database.
#[derive(Drop)]
pub struct DurableEngine<D: Disk, R: Root, L: SharedLists> {
    disk: D,
    core: Core<L>,
    root: PhantomData<R>,
}

impl<D: Disk, R: Root, L: SharedLists> Model for DurableEngine<D, R, L> {
    ghost use Rattle.durable_engine.specs.State.{State, state_code, state_of, IsKept};

    ghost Value = { State D };

    ghost coded = { state_code D.code };

    ghost view = { λ e. state_of e.disk e.core };

    ghost invariant = { λ e. IsKept R.root (D.past e.disk) e.core };
}

impl<D: Disk, R: Root, L: SharedLists> DurableEngine<D, R, L> {
    ghost use Rattle.law_crashes.specs.Since.{KeepsSince};
    ghost use Rattle.durable_engine.specs.State.{IsJoined, IsIdle, IsWorking, since_at, owes_ack};
    ghost use Rattle.durable_engine.specs.Calls.{Joins, Starts, StepsBy, KeepsTime, Leaves, SameState};
    ghost use Rattle.session_engine.specs.Calls.{GivesUpInVain};
    ghost use Rattle.session_engine.specs.Places.{HasExactPlaces};
    ghost use Rattle.durable_engine.specs.Going.{Nears, NearsLacking};
    ghost use Rattle.durable_engine.specs.Whole.{HoldsAll};

    /// An engine that nobody has joined, over the lists of a database that the disk's files and the log stand for.
    pub fn new(alloc: Global, disk: D, lists: SqlLists<L>, log: CommitLog) -> Self
        requires first { (db : Database) × AreFirst db lists × All IsLoggable db.schemas }
        requires idle { (s : ℕ) → task_of s lists ≡ TaskIdle }
        requires logging { IsLogging R.root (D.past disk) lists.past log }
        requires later { R.root.faults ≤ (D.past disk).faults }
        ensures disk { result.disk ≡ disk }
        ensures names { result.names ≡ [] }
        ensures past { result.past ≡ lists.past }
        ensures nobody { result.seats ≡ [] }
    {
        DurableEngine {
            disk,
            core: Core::Running(LoggedSessions::new(alloc, lists, log)),
            root: PhantomData,
        }
    }

    /// What has happened, which is legal. An item whose text is no statement has named its first bad byte. Whatever a crash left
    /// of the files since the mount holds the first so many of its commits, with all that were acknowledged by then. Only a disk
    /// that has failed stops the engine.
    pub fn history(&self) -> &History
        ensures names { result.now.names ≡ self.now.names }
        ensures past { result.now.past ≡ self.now.past }
        ensures legal { IsLegal Spells self.now.past }
        ensures exact { HasExactPlaces self.now.past }
        ensures stopped { has_stopped self.now.past ≡ true → Rose R.root.faults (D.past self.now.disk).faults }
        ensures crash { KeepsSince R.root (D.past self.now.disk) self.now.past }
    {
        match &self.core {
            Core::Running(sessions) => sessions.history(),
            Core::Stopped(sessions) => sessions.history(),
            Core::Changing => unreachable!(),
        }
    }

    /// Adds a session, whose number is that of the sessions before it.
    pub fn join(&mut self, name: &Bytes) -> Result<u32, NoMemory>
        requires { length self.old.names < 2 ^ 32 }
        ensures number { IfOk result (λ s. s ≡ length self.old.names) }
        ensures ok { OnOk result (Joins name.now self.old self.new) }
        ensures err { OnErr result (SameState self.old self.new) }
    {
        match &mut self.core {
            Core::Running(sessions) => sessions.join(name),
            Core::Stopped(sessions) => sessions.join(name),
            Core::Changing => unreachable!(),
        }
    }

    /// Whether the session has an item under way, or is on its way out.
    pub fn is_working(&self, s: u32) -> bool
        requires { IsJoined s self.now }
        ensures { result ≡ is_at_work (phase_at self.now.seats s) }
    {
        match &self.core {
            Core::Running(sessions) => sessions.is_working(s),
            Core::Stopped(sessions) => sessions.is_working(s),
            Core::Changing => unreachable!(),
        }
    }

    /// Whether the session's ending has come to its end. Then no item of it is under way.
    pub fn left(&self, s: u32) -> bool
        requires { IsJoined s self.now }
        ensures told { result ≡ has_left (phase_at self.now.seats s) }
        ensures over { IsTrue result → under_way s self.now.past ≡ None }
    {
        match &self.core {
            Core::Running(sessions) => sessions.left(s),
            Core::Stopped(sessions) => sessions.left(s),
            Core::Changing => unreachable!(),
        }
    }

    /// Whether the commit of the session's item is yet to be acknowledged, which its next step does. Once the engine has
    /// stopped, none is.
    pub fn owes_ack(&self, s: u32) -> bool
        requires { IsJoined s self.now }
        ensures { result ≡ owes_ack s self.now }
    {
        match &self.core {
            Core::Running(sessions) => sessions.owes_ack(s),
            Core::Stopped(_) => false,
            Core::Changing => unreachable!(),
        }
    }

    /// Starts an item of the session. It waits since no moment: it has made no step.
    pub fn start(&mut self, s: u32, item: &Item) -> Result<(), NoMemory>
        requires joined { IsJoined s self.old }
        requires idle { IsIdle s self.old }
        ensures ok { OnOk result (Starts s item.now self.old self.new) }
        ensures unstepped { OnOk result (since_at s self.new ≡ None) }
        ensures err { OnErr result (SameState self.old self.new) }
    {
        match &mut self.core {
            Core::Running(sessions) => sessions.start(s, item),
            Core::Stopped(sessions) => start_stopped(sessions, s, item),
            Core::Changing => unreachable!(),
        }
    }

    /// Makes a step of the session's item under way, or of its ending, at a moment in seconds. A commit is acknowledged by a step
    /// of its own, at the disk's moment, which flushes the log unless it is flushed so far. Where the disk fails then, the engine
    /// has stopped.
    pub fn step(&mut self, s: u32, now: u64) -> Progress
        requires joined { IsJoined s self.old }
        requires working { IsWorking s self.old }
        ensures steps { StepsBy s result self.old self.new }
        ensures nears { Nears s result self.old self.new }
        ensures lacks { NearsLacking s result self.old self.new }
        ensures time { KeepsTime s now (D.past self.new.disk).moment result self.old self.new }
        ensures waited { IfSome self.old.running (GivesUpInVain s now result) }
    {
        // Sessions that run are stepped where they lie, since most steps are theirs and a core is large.
        if let Core::Running(sessions) = &mut self.core
            && !sessions.owes_ack(s)
        {
            return sessions.step(s, now);
        }
        let core = mem::replace(&mut self.core, Core::Changing);
        let (core, progress) = step_of(core, s, now, &mut self.disk);
        self.core = core;
        progress
    }

    /// Begins the session's ending, whose steps `step` makes.
    pub fn leave(&mut self, s: u32)
        requires joined { IsJoined s self.old }
        requires idle { IsIdle s self.old }
        ensures { Leaves s self.old self.new }
    {
        match &mut self.core {
            Core::Running(sessions) => sessions.leave(s),
            Core::Stopped(sessions) => sessions.leave(s),
            Core::Changing => unreachable!(),
        }
    }

    /// Brings what is left of the log onto the disk, and gives the disk and the history back: every commit is on the disk then.
    /// An engine that has stopped meets its disk no more.
    pub fn close(self) -> (D, History, Result<(), Cause>)
        ensures names { result.1.names ≡ self.names }
        ensures past { result.1.past ≡ self.past }
        ensures legal { IsLegal Spells self.past }
        ensures exact { HasExactPlaces self.past }
        ensures stopped { has_stopped self.past ≡ true → Rose R.root.faults (D.past result.0).faults }
        ensures failed { IfErr result.2 (λ cause. (cause ≡ Cause.Disk) × Rose R.root.faults (D.past result.0).faults) }
        ensures crash { KeepsSince R.root (D.past result.0) self.past }
        ensures whole { IfOk result.2 (λ _. HoldsAll R.root (D.past result.0) self.past) }
    {
        let DurableEngine {
            mut disk,
            core,
            root: _,
        } = self;
        match core {
            Core::Running(mut sessions) => {
                let flushed = sessions.flush(&mut disk);
                let (history, _) = sessions.into_parts();
                match flushed {
                    Ok(()) => (disk, history, Ok(())),
                    Err(Failed) => (disk, history, Err(Cause::Disk)),
                }
            }
            Core::Stopped(sessions) => (disk, sessions.into_history(), Err(Cause::Disk)),
            Core::Changing => unreachable!(),
        }
    }
}
