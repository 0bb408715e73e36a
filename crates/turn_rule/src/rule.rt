//! What each seat of the turnstile knows, and what each kind of step tells it. Ghost state alone: nothing here runs.
//! `gate` alone plays these steps; a seat's pass holds its `View`.

use atomic_table::{Join, Play, Split, TableRule};
use inno_model::{Board, Recorded};
use std::collections::LinkedList;
use std::snapshot::Snapshot;

/// A session of a seat, what the seat has seen, and the places of the session's own entries. No value of it is made.
pub struct Claim {
    pub number: u32,
    pub seen: Board,
    pub own: LinkedList<u64>,
}

/// What a seat knows. No value of it is made.
pub struct View {
    /// The seat was not joined into another.
    pub live: bool,
    /// It holds the turn.
    pub turn: bool,
    /// While it holds the turn: how many sessions have seats.
    pub seated: u64,
    pub mine: Claim,
    /// The sessions of the seats that were joined into it.
    pub joined: LinkedList<Claim>,
}

/// The rule over the words, the slot and the views.
pub struct Turnstile;

impl<E: Recorded> TableRule<Option<E>, View, Snapshot<E>> for Turnstile {
    ghost use Rattle.turn_rule.specs.Turnstile.{IsTurnKept, first_view};

    ghost holds = { λ about. IsTurnKept E.board };

    ghost first = { λ about. first_view (E.board about.value) };
}

/// A compare-and-exchange of word 0, which wins (enter) or loses (miss).
pub struct Enter;

impl<E: Recorded> Play<Option<E>, View> for Enter {
    ghost use Rattle.turn_rule.specs.Steps.{Tried};

    ghost then = { Tried E.board };
}

/// A store of the history's length in word 1.
pub struct Publish;

impl<E: Recorded> Play<Option<E>, View> for Publish {
    ghost use Rattle.turn_rule.specs.Steps.{Shown};

    ghost then = { Shown E.board };
}

/// A store of 0 in word 0, which gives the slot back.
pub struct Depart;

impl<E: Recorded> Play<Option<E>, View> for Depart {
    ghost use Rattle.turn_rule.specs.Steps.{Departed};

    ghost then = { Departed };
}

/// A seat for the session that has just joined.
pub struct NewSeat;

impl Split<View> for NewSeat {
    ghost use Rattle.turn_rule.specs.Steps.{counted, newcomer};

    ghost left = { counted };

    ghost right = { newcomer };
}

/// A seat takes in the sessions of another.
pub struct TakesIn;

impl Join<View> for TakesIn {
    ghost use Rattle.turn_rule.specs.Steps.{with_sessions, spent};

    ghost both = { with_sessions };

    ghost spent = { spent };
}
