//! How a script begins: the room that its threads need, and a session for each of its names.
//! Only `on_threads` begins so, while its thread is the only one.

ghost use Rattle.std.specs.Prelude.{◌≡◌, ◌↔◌, ◌+◌, ◌<◌, ◌≤◌, ◌++◌, ◌∷◌, ℕ, [], true, length, map, IfOk, IfSome, IsTrue, take, vec_capacity, vec_len};
ghost use Rattle.std.specs.List.{AllByRecursion};
ghost use Rattle.inno_model.specs.Recorded.{Extends};
ghost use Rattle.inno_model.specs.Boards.{calls_of};
ghost use Rattle.turn_engine.specs.Sessions.{own, setup};
ghost use Rattle.script_play.specs.Playing.{IsNew, AreNumbered};

use crate::parts::Part;
use inno_types::Bytes;
use std::alloc::{AllocError, Global};
use std::sync::Wait;
use store_api::NoMemory;
use turn_engine::{Hall, Receipt, Session, Turns};

/// Room for so many sessions, taken before the engine is shared.
#[derive(Drop)]
pub struct Rooms<E: Turns> {
    pub sessions: Vec<Session>,
    pub parts: Vec<Part<E>>,
    pub receipts: Vec<Receipt>,
}

impl<E: Turns> Rooms<E> {
    pub fn new(alloc: Global, count: usize) -> Result<Self, AllocError>
        ensures sessions { IfOk result (λ r. (r.sessions.items ≡ []) × (count ≤ vec_capacity r.sessions)) }
        ensures parts { IfOk result (λ r. (r.parts.items ≡ []) × (count ≤ vec_capacity r.parts)) }
        ensures receipts { IfOk result (λ r. (r.receipts.items ≡ []) × (count ≤ vec_capacity r.receipts)) }
    {
        Ok(Rooms {
            sessions: Vec::with_capacity(alloc, count)?,
            parts: Vec::with_capacity(alloc, count)?,
            receipts: Vec::with_capacity(alloc, count)?,
        })
    }
}

/// The names behind that of the setup part, where that comes first and they are few enough.
pub fn other_names(names: &[Bytes]) -> Option<&[Bytes]>
    ensures { IfSome result (λ others. (names.now ≡ setup ∷ others.now) × (length others.now ≤ 64)) }
{
    let (first, others) = names.split_first()?;
    if is_setup(first) && others.len() <= 64 {
        Some(others)
    } else {
        None
    }
}

fn is_setup(name: &Bytes) -> bool
    ensures { IsTrue result ↔ (name.now ≡ setup) }
{
    name.as_slice() == "setup".as_bytes()
}

/// Adds a session for each name, in order, and says whether there was memory for all.
pub fn split_all<E: Turns, R: Wait>(
    rt: &R,
    hall: &Hall<E>,
    first: &mut Session,
    names: &[Bytes],
    sessions: &mut Vec<Session>,
) -> bool
    requires hall { (first.old.hall ≡ hall.now) × (first.old.number ≡ 0) }
    requires few { length first.old.seen.names + length names.now ≤ 68 }
    requires room { (sessions.old.items ≡ []) × (length names.now ≤ vec_capacity sessions.old) }
    ensures same { (first.new.hall ≡ first.old.hall) × (first.new.number ≡ 0) × (own first.new ≡ own first.old) × (first.new.lost ≡ first.old.lost) }
    ensures seen { Extends first.old.seen.past first.new.seen.past }
    // Before they joined they had made no call.
    ensures uncalled { (x : ℕ) → length first.old.seen.names ≤ x → x < length first.new.seen.names → calls_of x first.old.seen.past ≡ [] }
    ensures names { first.new.seen.names ≡ first.old.seen.names ++ take (length sessions.new.items) names.now }
    ensures all { IsTrue result → length sessions.new.items ≡ length names.now }
    ensures few { length sessions.new.items ≤ length names.now }
    ensures new { AllByRecursion (IsNew hall.now) sessions.new.items }
    ensures numbered { AreNumbered (length first.old.seen.names) (map (λ s. s.number) sessions.new.items) }
    ensures room { vec_capacity sessions.new ≡ vec_capacity sessions.old }
{
    for name in names {
        match first.split(rt, hall, name) {
            Ok(session) => sessions.push_reserved(session),
            Err(NoMemory) => return false,
        }
    }
    true
}
