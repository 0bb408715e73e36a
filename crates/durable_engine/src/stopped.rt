//! The calls of a stopped engine. They are those of one that runs; each step answers why it stopped, or finds no
//! memory. `stepping` makes one when the disk has failed. No call here meets the disk or a log.

ghost use Rattle.std.specs.Prelude.{◌≡◌, ◌≢◌, ◌<◌, ◌^◌, [], true, false, None, Some, length, IsTrue, IfOk, OnOk, OnErr};
ghost use Rattle.inno_model.specs.Past.{under_way};
ghost use Rattle.sql_grammar.specs.Grammar.{Spells};
ghost use Rattle.sql_history.specs.Counts.{has_stopped};
ghost use Rattle.sql_history.specs.Legal.{IsLegal, owes_commit};
ghost use Rattle.inno_model.specs.declared.board.Phase.TheVariants.{Idle};
ghost use Rattle.durable_engine.specs.Seats.{phase_at, AreSeats, stopped_by};
ghost use Rattle.durable_engine.specs.StoppedCalls.{IsAtWork, is_at_work, has_left, Joins, Starts, StepsBy, Leaves, SameState};

use crate::stop_entries::{end_turn, enter_stop};
use crate::stopped_seats::Seat;
use inno_model::{Event, History, Phase};
use inno_types::{Bytes, Cause, Item};
use std::marker::Model;
use store_api::{NoMemory, Progress};

/// The sessions of an engine that has stopped, with its history.
#[derive(Drop)]
pub struct StoppedSessions {
    history: History,
    seats: Vec<Seat>,
    cause: Cause,
    /// Whether the history says why the engine stopped.
    entered: bool,
}

impl Model for StoppedSessions {
    ghost use Rattle.durable_engine.specs.Seats.{State, state_code, IsStopped, state_of};

    ghost Value = { State };

    ghost coded = { state_code };

    ghost view = { λ s. state_of s.history s.seats.items s.cause };

    ghost invariant = { λ s. IsStopped s.entered (state_of s.history s.seats.items s.cause) };
}

impl StoppedSessions {
    /// The sessions of an engine that stops now. It takes no memory: the seats are handed in, and why the engine stopped
    /// is entered by the first step.
    pub fn new(history: History, seats: Vec<Seat>, cause: Cause) -> Self
        requires legal { IsLegal Spells history.past }
        requires opened { history.past ≢ [] }
        requires paid { owes_commit history.past ≡ None }
        requires runs { has_stopped history.past ≡ false }
        requires seated { AreSeats history.names history.past seats.items }
        ensures { result ≡ record { names = history.names; past = history.past; seats = seats.items; cause = cause } }
    {
        StoppedSessions {
            history,
            seats,
            cause,
            entered: false,
        }
    }

    /// What has happened, which is legal.
    pub fn history(&self) -> &History
        ensures names { result.now.names ≡ self.now.names }
        ensures past { result.now.past ≡ self.now.past }
        ensures legal { IsLegal Spells self.now.past }
        ensures stopped { has_stopped self.now.past ≡ true → stopped_by self.now.past ≡ Some self.now.cause }
    {
        &self.history
    }

    /// Why the engine stopped.
    pub fn cause(&self) -> Cause
        ensures { result ≡ self.now.cause }
    {
        self.cause
    }

    /// Adds a session, whose number is that of the sessions before it.
    #[tactic(auto, using(crate::proofs::StoppedKeeping::seat_more))]
    pub fn join(&mut self, name: &Bytes) -> Result<u32, NoMemory>
        requires { length self.old.names < 2 ^ 32 }
        ensures number { IfOk result (λ s. s ≡ length self.old.names) }
        ensures ok { OnOk result (Joins name.now self.old self.new) }
        ensures err { OnErr result (SameState self.old self.new) }
    {
        let name = name.copied()?;
        let number = self.history.names().len() as u32;
        self.seats.push(Seat {
            phase: Phase::Idle,
            started: 0,
        })?;
        self.history.add_name(name)?;
        Ok(number)
    }

    /// Whether the session has an item under way, or is on its way out.
    pub fn is_working(&self, s: u32) -> bool
        requires { s < length self.now.names }
        ensures { result ≡ is_at_work (phase_at self.now.seats s) }
    {
        match self.seats[s as usize].phase {
            Phase::Idle | Phase::Left => false,
            Phase::Busy | Phase::Leaving => true,
        }
    }

    /// Whether the session's ending has come to its end. Then no item of it is under way.
    pub fn left(&self, s: u32) -> bool
        requires { s < length self.now.names }
        ensures told { result ≡ has_left (phase_at self.now.seats s) }
        ensures over { IsTrue result → under_way s self.now.past ≡ None }
    {
        is_gone(&self.seats, s)
    }

    /// Starts an item of the session.
    pub fn start(&mut self, s: u32, item: &Item) -> Result<(), NoMemory>
        requires joined { s < length self.old.names }
        requires idle { phase_at self.old.seats s ≡ Idle }
        ensures ok { OnOk result (Starts s item.now self.old self.new) }
        ensures err { OnErr result (SameState self.old self.new) }
    {
        let before = self.seats[s as usize].started;
        if before == u32::MAX {
            return Err(NoMemory);
        }
        let item = item.copied()?;
        self.history.reserve(1)?;
        let j = before + 1;
        self.history.add(Event::Started { s, j, item });
        self.seats[s as usize] = Seat {
            phase: Phase::Busy,
            started: j,
        };
        Ok(())
    }

    /// Makes a step of the session's item under way, which ends by it, or of its ending, which is over then. The first step
    /// enters why the engine stopped, before its own entry. Without memory for the two entries nothing is done.
    pub fn step(&mut self, s: u32) -> Progress
        requires joined { s < length self.old.names }
        requires working { IsAtWork (phase_at self.old.seats s) }
        ensures { StepsBy s result self.old self.new }
    {
        if self.history.reserve(2).is_err() {
            return Progress::NoMemory;
        }
        let seat = self.seats[s as usize];
        enter_stop(&mut self.history, self.entered, self.cause);
        let phase = end_turn(&mut self.history, s, seat);
        self.entered = true;
        self.seats[s as usize] = Seat {
            phase,
            started: seat.started,
        };
        Progress::Stopped(self.cause)
    }

    /// Begins the session's ending, whose one step `step` makes. Its transaction is rolled back no more.
    pub fn leave(&mut self, s: u32)
        requires joined { s < length self.old.names }
        requires idle { phase_at self.old.seats s ≡ Idle }
        ensures { Leaves s self.old self.new }
    {
        let Seat { phase: _, started } = self.seats[s as usize];
        self.seats[s as usize] = Seat {
            phase: Phase::Leaving,
            started,
        };
    }

    /// The history, and nothing else.
    pub fn into_history(self) -> History
        ensures names { result.names ≡ self.names }
        ensures past { result.past ≡ self.past }
        ensures legal { IsLegal Spells self.past }
        ensures stopped { has_stopped self.past ≡ true → stopped_by self.past ≡ Some self.cause }
    {
        let StoppedSessions {
            history,
            seats: _,
            cause: _,
            entered: _,
        } = self;
        history
    }
}

fn is_gone(seats: &[Seat], s: u32) -> bool
    requires { s < length seats.now }
    ensures { result ≡ has_left (phase_at seats.now s) }
{
    seats[s as usize].phase == Phase::Left
}
