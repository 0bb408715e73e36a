//! An engine over a disk with what sessions on threads need to know of it: its board is its names, its past, and how far its
//! past and its seats say that each session is.

ghost use Rattle.std.specs.Prelude.{◌≡◌, ◌<◌, ℕ, [], length, true, None};
ghost use Rattle.inno_model.specs.Past.{under_way};
ghost use Rattle.sql_grammar.specs.Grammar.{Spells};
ghost use Rattle.sql_history.specs.Legal.{IsLegal};
ghost use Rattle.durable_engine.specs.Seats.{phase_at};
ghost use Rattle.durable_engine.specs.StoppedCalls.{has_left};

use crate::patience::Patience;
use durable_engine::{DurableEngine, Root};
use inno_model::Recorded;
use shared_lists::SharedLists;
use std::marker::Model;
use store_api::Disk;

/// An engine that sessions on threads may share. Contracts see it as the engine inside.
#[derive(Drop)]
pub struct SharedEngine<D: Disk, R: Root, L: SharedLists> {
    pub(crate) engine: DurableEngine<D, R, L>,
    /// How long commits may wait yet for others to be flushed with.
    pub(crate) left: Patience,
}

impl<D: Disk, R: Root, L: SharedLists> Model for SharedEngine<D, R, L> {
    ghost use Rattle.durable_engine.specs.State.{State, state_code};
    ghost use Rattle.shared_engine.specs.Shown.{AreAtRest};

    ghost Value = { State D };

    ghost coded = { state_code D.code };

    ghost view = { λ e. e.engine };

    ghost invariant = { λ e. AreAtRest e.engine };
}

impl<D: Disk, R: Root, L: SharedLists> Recorded for SharedEngine<D, R, L> {
    ghost use Rattle.shared_engine.specs.Shown.{board_of};

    ghost board = { λ e. board_of e };
}

impl<D: Disk, R: Root, L: SharedLists> SharedEngine<D, R, L> {
    /// An engine that nobody has joined.
    pub fn new(engine: DurableEngine<D, R, L>) -> Self
        requires nobody { engine.seats ≡ [] }
        requires rests { (s : ℕ) → under_way s engine.past ≡ None }
        ensures { result ≡ engine }
    {
        SharedEngine {
            engine,
            left: Patience::new(),
        }
    }

    /// The engine inside.
    pub fn into_engine(self) -> DurableEngine<D, R, L>
        ensures { result ≡ self }
    {
        let SharedEngine { engine, left: _ } = self;
        engine
    }
}

/// What an engine tells of a session at any time: its past is legal, and one that has left has nothing under way.
pub(crate) fn agree<D: Disk, R: Root, L: SharedLists>(engine: &DurableEngine<D, R, L>, s: u32)
    requires joined { s < length engine.now.names }
    ensures legal { IsLegal Spells engine.now.past }
    ensures gone { has_left (phase_at engine.now.seats s) ≡ true → under_way s engine.now.past ≡ None }
{
    let _ = engine.history();
    let _ = engine.left(s);
}
