//! The calls of sessions. Each step of a session is a step of its statement or of its ending; a commit is acknowledged by a
//! call of its own, which whoever keeps a log makes. The seats say which sessions are at work.

ghost use Rattle.std.specs.Prelude.{◌≡◌, ◌≢◌, ℕ, ◌<◌, ◌≤◌, ◌^◌, [], length, true, false, None, IsTrue, IfOk, OnOk, OnErr};
ghost use Rattle.std.specs.List.{list_any};
ghost use Rattle.inno_db.specs.Database.{Database};
ghost use Rattle.shared_lists.specs.Tasks.{Idle as TaskIdle};
ghost use Rattle.shared_lists.specs.State.{task_of};
ghost use Rattle.law_histories.specs.Space.{ends_without_want};
ghost use Rattle.law_past_agreement.specs.Order.{IsOrdered};
ghost use Rattle.shared_lists.specs.Fitting.{FitsThen};
ghost use Rattle.sql_lists.specs.Kept.{AreStanding};
ghost use Rattle.session_engine.specs.Calls.{AreFirst};

use crate::seats::{Seat, Seats};
use crate::signalling::signal;
use crate::steps::{go_out, read_item, refuse};
use inno_model::{History, Phase};
use inno_types::{Bytes, Item};
use shared_lists::SharedLists;
use sql_lists::SqlLists;
use std::alloc::Global;
use std::marker::Model;
use store_api::{NoMemory, Progress};

/// Sessions, whatever keeps the lists that they share.
#[derive(Drop)]
pub struct SessionEngine<L: SharedLists> {
    alloc: Global,
    lists: SqlLists<L>,
    seats: Seats,
}

impl<L: SharedLists> Model for SessionEngine<L> {
    ghost use Rattle.session_engine.specs.Seats.{State, state_code, AreSeats};

    ghost Value = { State };

    ghost coded = { state_code };

    ghost view = { λ e. record { lists = e.lists; seats = e.seats } };

    ghost invariant = { λ e. AreSeats e.lists e.seats };
}

impl<L: SharedLists> SessionEngine<L> {
    ghost use Rattle.session_engine.specs.Seats.{IsJoined, IsIdle, IsWorking, HasEnded, IsSeatOf};
    ghost use Rattle.session_engine.specs.Calls.{Joins, Starts, StepsBy, TellsNone, Acknowledges, GivesUpInVain, WaitsOn, since_after, Leaves, SameState};
    ghost use Rattle.session_engine.specs.Going.{Nears, NearsLacking};
    ghost use Rattle.session_engine.specs.Places.{HasExactPlaces};
    ghost use Rattle.session_engine.specs.Seats.{has_left, is_working, owes, phase_of, wants_room, seat_at, since_at, AreSeats};
    ghost use Rattle.sql_grammar.specs.Grammar.{Spells};
    ghost use Rattle.sql_history.specs.Legal.{IsLegal, owes_commit};
    ghost use Rattle.sql_history.specs.Counts.{has_stopped, last_moment};

    /// Lists that nobody has joined.
    pub fn new(alloc: Global, lists: SqlLists<L>) -> Self
        requires first { (db : Database) × AreFirst db lists }
        requires idle { (s : ℕ) → task_of s lists ≡ TaskIdle }
        ensures { result ≡ record { lists = lists; seats = [] } }
    {
        SessionEngine {
            alloc,
            lists,
            seats: Seats::new(alloc),
        }
    }

    /// What has happened, which is legal. An item whose text is no statement has named its first bad byte. No device has stopped
    /// the engine, and as long as no store keeps pages, no item ends with 1114 for want of one.
    pub fn history(&self) -> &History
        ensures names { result.now.names ≡ self.now.lists.names }
        ensures past { result.now.past ≡ self.now.lists.past }
        ensures legal { IsLegal Spells self.now.lists.past }
        ensures exact { HasExactPlaces self.now.lists.past }
        ensures runs { has_stopped self.now.lists.past ≡ false }
        ensures for_pages { list_any ends_without_want self.now.lists.past ≡ false }
        ensures sound { IsOrdered self.now.lists.past }
        ensures fits { FitsThen self.now.lists.past }
        ensures tables { AreStanding self.now.lists.past }
        ensures agree { AreSeats self.now.lists self.now.seats }
    {
        self.lists.history()
    }

    /// Adds a session, whose number is that of the sessions before it.
    pub fn join(&mut self, name: &Bytes) -> Result<u32, NoMemory>
        requires { length self.old.lists.names < 2 ^ 32 }
        ensures number { IfOk result (λ s. s ≡ length self.old.lists.names) }
        ensures ok { OnOk result (Joins name.now self.old self.new) }
        ensures err { OnErr result (SameState self.old self.new) }
    {
        let name = name.copied()?;
        self.seats.join()?;
        self.lists.join(name)
    }

    /// Whether the session has an item under way, or is on its way out.
    pub fn is_working(&self, s: u32) -> bool
        requires { IsJoined s self.now }
        ensures { result ≡ is_working (seat_at self.now.seats s) }
    {
        self.seats.is_working(s)
    }

    /// How far the session is.
    pub fn phase(&self, s: u32) -> Phase
        requires { IsJoined s self.now }
        ensures { result ≡ phase_of (seat_at self.now.seats s) }
    {
        self.seats.phase(s)
    }

    /// Whether the session's ending has come to its end.
    pub fn left(&self, s: u32) -> bool
        requires { IsJoined s self.now }
        ensures told { result ≡ has_left (seat_at self.now.seats s) }
        ensures over { IsTrue result → HasEnded s self.now }
    {
        self.seats.has_left(s)
    }

    /// Starts an item of the session. It waits since no moment: it has made no step.
    pub fn start(&mut self, s: u32, item: &Item) -> Result<(), NoMemory>
        requires joined { IsJoined s self.old }
        requires idle { IsIdle s self.old }
        ensures ok { OnOk result (Starts s item.now self.old self.new) }
        ensures unstepped { OnOk result (since_at s self.new ≡ None) }
        ensures err { OnErr result (SameState self.old self.new) }
    {
        let seat = read_item(self.alloc, item)?;
        self.seat(s, item.copied()?, seat)
    }

    /// Seats what was read from the item.
    fn seat(&mut self, s: u32, item: Item, seat: Seat) -> Result<(), NoMemory>
        requires joined { IsJoined s self.old }
        requires idle { IsIdle s self.old }
        requires reads { IsSeatOf item seat }
        ensures ok { OnOk result (Starts s item self.old self.new) }
        ensures unstepped { OnOk result (since_at s self.new ≡ None) }
        ensures err { OnErr result (SameState self.old self.new) }
    {
        self.lists.start(s, item)?;
        drop(self.seats.replace(s, seat));
        Ok(())
    }

    /// Whether the commit of the session's item is yet to be acknowledged. Until then the item makes no step.
    pub fn owes_ack(&self, s: u32) -> bool
        requires { IsJoined s self.now }
        ensures { result ≡ owes (seat_at self.now.seats s) }
    {
        self.seats.owes(s)
    }

    /// Acknowledges the commit of the session's item, at a moment that no earlier acknowledgement lies behind.
    pub fn acknowledge(&mut self, s: u32, moment: u64)
        requires joined { IsJoined s self.old }
        requires owed { owes (seat_at self.old.seats s) ≡ true }
        requires later { last_moment self.old.lists.past ≤ moment }
        ensures acknowledges { Acknowledges s moment self.old self.new }
        ensures since { since_at s self.new ≡ None }
        ensures nears { Nears s Progress.Went self.old self.new }
    {
        match self.seats.replace(s, Seat::Idle) {
            Seat::Busy(statement) => {
                self.lists.ack(s, moment);
                drop(self.seats.replace(s, Seat::Busy(statement.acked())));
            }
            _ => unreachable!(),
        }
    }

    /// Whether the session's item is about to tell a change to the history. Whoever logs changes takes room in the log first.
    pub fn wants_room(&self, s: u32) -> bool
        requires { IsJoined s self.now }
        ensures { result ≡ wants_room (seat_at self.now.seats s) }
    {
        self.seats.wants_room(s)
    }

    /// The session's item gives up where there is no room for its change: it takes back what it has changed. That is a step
    /// which finds no memory.
    pub fn give_up(&mut self, s: u32)
        requires joined { IsJoined s self.old }
        requires wants { wants_room (seat_at self.old.seats s) ≡ true }
        ensures steps { StepsBy s Progress.NoMemory self.old self.new }
        ensures lacks { NearsLacking s Progress.NoMemory self.old self.new }
        ensures busy { phase_of (seat_at self.new.seats s) ≡ Phase.Busy }
        ensures since { since_at s self.new ≡ None }
    {
        match self.seats.replace(s, Seat::Idle) {
            Seat::Busy(statement) => {
                let (statement, _) = statement.without_room(s, &mut self.lists);
                drop(self.seats.replace(s, Seat::Busy(statement)));
            }
            _ => unreachable!(),
        }
    }

    /// Makes a step of the session's item under way, or of its ending, at a moment in seconds. It tells no change unless room
    /// was wanted for one.
    pub fn step(&mut self, s: u32, now: u64) -> Progress
        requires joined { IsJoined s self.old }
        requires working { IsWorking s self.old }
        requires acked { owes (seat_at self.old.seats s) ≡ false }
        ensures steps { StepsBy s result self.old self.new }
        ensures quiet { wants_room (seat_at self.old.seats s) ≡ false → TellsNone self.old.lists.past self.new.lists.past }
        ensures nears { Nears s result self.old self.new }
        ensures lacks { NearsLacking s result self.old self.new }
        ensures since { since_at s self.new ≡ since_after result now (since_at s self.old) }
        ensures waits { result ≡ Progress.NotYet → WaitsOn now (since_at s self.old) }
        ensures waited { GivesUpInVain s now result self.old }
    {
        if self.seats.is_busy(s) {
            return self.seats.step(self.alloc, s, &mut self.lists);
        }
        match self.seats.replace(s, Seat::Idle) {
            Seat::Refused { at } => {
                let (seat, progress) = refuse(s, at, &mut self.lists);
                drop(self.seats.replace(s, seat));
                progress
            }
            Seat::Signalling(item) => {
                let (seat, progress) = signal(s, item, now, &mut self.lists);
                drop(self.seats.replace(s, seat));
                progress
            }
            _ => {
                let (seat, progress) = go_out(s, &mut self.lists);
                drop(self.seats.replace(s, seat));
                progress
            }
        }
    }

    /// Begins the session's ending, whose steps `step` makes.
    pub fn leave(&mut self, s: u32)
        requires joined { IsJoined s self.old }
        requires idle { IsIdle s self.old }
        ensures { Leaves s self.old self.new }
    {
        drop(self.seats.replace(s, Seat::Leaving));
    }

    /// The history, and nothing else.
    pub fn into_history(self) -> History
        ensures names { result.names ≡ self.lists.names }
        ensures past { result.past ≡ self.lists.past }
        ensures legal { IsLegal Spells self.lists.past }
        ensures exact { HasExactPlaces self.lists.past }
        ensures runs { has_stopped self.lists.past ≡ false }
        ensures opened { self.lists.past ≢ [] }
        ensures paid { owes_commit self.lists.past ≡ None }
        ensures agree { AreSeats self.lists self.seats }
    {
        let SessionEngine {
            alloc: _,
            lists,
            seats: _,
        } = self;
        lists.into_history()
    }
}
