//! What is kept of an open transaction: its id, its view and its undo records.
//! Rooms of sessions alone keep such values; a world makes the ids that a view has seen.

use inno_types::{Ids, Level};
use std::marker::Model;
use store_api::Undo;

/// An undo record, and the roll pointer that leads to it.
#[derive(Drop)]
pub struct LoggedUndo {
    pub pointer: u64,
    pub undo: Undo,
}

impl Model for LoggedUndo {
    ghost use Rattle.world.specs.State.{Logged};

    ghost Value = { Logged };

    ghost view = { λ l. record { pointer = l.pointer; undo = l.undo } };
}

/// The ids that were active when a view was taken, and the next one then.
#[derive(Drop)]
pub struct SeenIds {
    pub active: Ids,
    pub next: u64,
}

impl Model for SeenIds {
    ghost use Rattle.world.specs.State.{Seen};

    ghost Value = { Seen };

    ghost view = { λ s. record { active = s.active; next = s.next } };
}

/// An open transaction. Its undo records stand the newest last.
#[derive(Drop)]
pub struct OpenWork {
    pub txn: u64,
    pub level: Level,
    /// 0 until it first writes.
    pub id: u64,
    /// How many changes of its own stand.
    pub own: u64,
    pub view: Option<SeenIds>,
    pub log: Vec<LoggedUndo>,
    /// Whether the history has room for the entry by which it ends.
    pub can_end: bool,
}
