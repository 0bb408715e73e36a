//! The board: what threads that share an engine know of it. Definitions alone, on which the turnstile and the engine
//! meet; no value of a board is ever made.

use crate::Event;
use inno_types::Bytes;
use std::collections::LinkedList;

/// How far a session is.
#[derive(Clone, Copy)]
pub enum Phase {
    /// It runs no item. One that hasn't joined is idle too.
    Idle,
    /// An item of it is under way.
    Busy,
    /// Its ending is under way.
    Leaving,
    Left,
}

/// The names of the sessions that have joined, the entries of the history, the newest first, and how far each session is.
pub struct Board {
    pub names: LinkedList<Bytes>,
    pub past: LinkedList<Event>,
    pub phases: LinkedList<Phase>,
}

/// A type whose values have a board.
pub trait Recorded {
    ghost use Rattle.inno_model.specs.declared.board.Board.{Board};

    ghost board: { Self → Board };
}
