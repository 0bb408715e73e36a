//! Where each session stands: idle, at work on a statement or a signal, on its way out, or gone.
//! The session engine alone keeps them, and takes a seat out and puts the next one in.

ghost use Rattle.std.specs.Prelude.{◌≡◌, ◌<◌, [], ◌∷◌, ◌++◌, length, OnOk, OnErr, slice_set};
ghost use Rattle.session_engine.specs.Calls.{StepsTo};
ghost use Rattle.session_engine.specs.Seats.{IsAtWork, seat_at, is_working, is_busy, owes, phase_of, wants_room, has_left};

use crate::boxed::BoxedStatement;
use inno_model::Phase;
use inno_types::Bytes;
use shared_lists::SharedLists;
use sql_lists::{Advance, SqlLists};
use std::alloc::{AllocError, Global};
use std::marker::Model;
use std::mem;
use store_api::Progress;

/// Where a session stands.
#[derive(Drop)]
pub enum Seat {
    Idle,
    Busy(BoxedStatement),
    /// Its item's text is no statement: it stops being the beginning of one at this byte.
    Refused { at: u32 },
    /// Its item gives a signal, or awaits one.
    Signalling(SignalItem),
    /// Its open transaction is being rolled back.
    Leaving,
    Left,
}

impl Seat {
    /// A step of its statement, where it lies. The seat of one that is done is idle.
    fn step<L: SharedLists>(
        &mut self,
        alloc: Global,
        session: u32,
        lists: &mut SqlLists<L>,
    ) -> Progress
        requires joined { session < length lists.old.names }
        requires at_work { IsAtWork session lists.old self.old }
        ensures { StepsTo session lists.old lists.new self.old self.new result }
    {
        let advance = match self {
            Seat::Busy(statement) => statement.step(alloc, session, lists),
            _ => unreachable!(),
        };
        match advance {
            Advance::Went => Progress::Went,
            Advance::Waiting { by: _, blockers } => Progress::Waiting { blockers },
            Advance::NoMemory => Progress::NoMemory,
            Advance::Done(reply) => {
                drop(mem::replace(self, Seat::Idle));
                Progress::Done(reply)
            }
        }
    }
}

/// An item that is no statement.
#[derive(Drop)]
pub enum SignalItem {
    /// It gives the signal of this name.
    Gives(Bytes),
    Awaits(Wait),
}

/// How far an item is that awaits a signal.
#[derive(Drop)]
pub struct Wait {
    pub name: Bytes,
    /// So many of the oldest entries of the history don't give it.
    pub seen: usize,
    /// The moment of the item's first step, in seconds.
    pub since: Option<u64>,
}

/// The seats of all sessions, by number.
#[derive(Drop)]
pub struct Seats {
    seats: Vec<Seat>,
}

impl Model for Seats {
    ghost use Rattle.std.specs.Prelude.{List};
    ghost use Rattle.std.specs.Coded.{coded_list};
    ghost use Rattle.session_engine.specs.declared.seats.Seat.{Seat};
    ghost use Rattle.session_engine.specs.contracts.seats.Seat as of_seat;

    ghost Value = { List Seat };

    ghost coded = { coded_list of_seat.the_row.coded };

    ghost view = { λ s. s.seats.items };
}

impl Seats {
    pub fn new(alloc: Global) -> Self
        ensures { result ≡ [] }
    {
        Seats {
            seats: Vec::new(alloc),
        }
    }

    /// Another session, which is idle.
    pub fn join(&mut self) -> Result<(), AllocError>
        ensures ok { OnOk result (self.new ≡ self.old ++ Seat.Idle ∷ []) }
        ensures err { OnErr result (self.new ≡ self.old) }
    {
        self.seats.push(Seat::Idle)?;
        Ok(())
    }

    pub fn is_working(&self, session: u32) -> bool
        requires { session < length self.now }
        ensures { result ≡ is_working (seat_at self.now session) }
    {
        match &self.seats[session as usize] {
            Seat::Idle | Seat::Left => false,
            Seat::Busy(_) | Seat::Refused { .. } | Seat::Signalling(_) | Seat::Leaving => true,
        }
    }

    /// Whether the session has a statement under way.
    pub fn is_busy(&self, session: u32) -> bool
        requires { session < length self.now }
        ensures { result ≡ is_busy (seat_at self.now session) }
    {
        matches!(&self.seats[session as usize], Seat::Busy(_))
    }

    /// Whether the commit of the session's statement is yet to be acknowledged.
    pub fn owes(&self, session: u32) -> bool
        requires { session < length self.now }
        ensures { result ≡ owes (seat_at self.now session) }
    {
        match &self.seats[session as usize] {
            Seat::Busy(statement) => statement.owes_ack(),
            Seat::Idle | Seat::Refused { .. } | Seat::Signalling(_) | Seat::Leaving | Seat::Left =>
                false,
        }
    }

    /// Whether the session's statement is about to tell a change to the history.
    pub fn wants_room(&self, session: u32) -> bool
        requires { session < length self.now }
        ensures { result ≡ wants_room (seat_at self.now session) }
    {
        match &self.seats[session as usize] {
            Seat::Busy(statement) => statement.wants_room(),
            Seat::Idle | Seat::Refused { .. } | Seat::Signalling(_) | Seat::Leaving | Seat::Left =>
                false,
        }
    }

    pub fn phase(&self, session: u32) -> Phase
        requires { session < length self.now }
        ensures { result ≡ phase_of (seat_at self.now session) }
    {
        match &self.seats[session as usize] {
            Seat::Idle => Phase::Idle,
            Seat::Busy(_) | Seat::Refused { .. } | Seat::Signalling(_) => Phase::Busy,
            Seat::Leaving => Phase::Leaving,
            Seat::Left => Phase::Left,
        }
    }

    pub fn has_left(&self, session: u32) -> bool
        requires { session < length self.now }
        ensures { result ≡ has_left (seat_at self.now session) }
    {
        matches!(&self.seats[session as usize], Seat::Left)
    }

    /// A step of the session's statement, where it lies.
    pub fn step<L: SharedLists>(
        &mut self,
        alloc: Global,
        session: u32,
        lists: &mut SqlLists<L>,
    ) -> Progress
        requires seated { session < length self.old }
        requires joined { session < length lists.old.names }
        requires at_work { IsAtWork session lists.old (seat_at self.old session) }
        ensures { (seat : Seat) × (self.new ≡ slice_set self.old session seat) × StepsTo session lists.old lists.new (seat_at self.old session) seat result }
    {
        self.seats[session as usize].step(alloc, session, lists)
    }

    /// Puts a seat in the session's place, and gives back the one that was there.
    pub fn replace(&mut self, session: u32, seat: Seat) -> Seat
        requires { session < length self.old }
        ensures was { result ≡ seat_at self.old session }
        ensures is { self.new ≡ slice_set self.old session seat }
    {
        mem::replace(&mut self.seats[session as usize], seat)
    }
}
