//! The engine as play drives it.
//! `ways` makes one for a play and takes the engine out again; in between `play` alone calls it.

ghost use Rattle.std.specs.Prelude.{◌≡◌, ℕ, [], None};
ghost use Rattle.inno_model.specs.Past.{under_way};
ghost use Rattle.script_runner.specs.Engines.{shown_of};

use durable_engine::{DurableEngine, Root};
use inno_types::{Bytes, Item};
use script_play::Sessions;
use shared_lists::SharedLists;
use std::marker::Model;
use store_api::{Disk, NoMemory, Progress};

/// An engine whose sessions play makes step, and the moment of their steps, in seconds. Contracts see it as these two.
#[derive(Drop)]
pub struct Seats<D: Disk, R: Root, L: SharedLists> {
    engine: DurableEngine<D, R, L>,
    moment: u64,
}

impl<D: Disk, R: Root, L: SharedLists> Model for Seats<D, R, L> {
    ghost use Rattle.std.specs.Prelude.{ℕ};
    ghost use Rattle.std.specs.Coded.{coded×, coded_ℕ};
    ghost use Rattle.durable_engine.specs.State.{State, state_code};
    ghost use Rattle.shared_engine.specs.Shown.{AreAtRest};

    ghost Value = { State D × ℕ };

    ghost coded = { coded× (state_code D.code) coded_ℕ };

    ghost view = { λ e. (e.engine, e.moment) };

    ghost invariant = { λ e. AreAtRest e.engine };
}

impl<D: Disk, R: Root, L: SharedLists> Seats<D, R, L> {
    /// An engine that nobody has joined, before any time has passed.
    pub fn new(engine: DurableEngine<D, R, L>) -> Self
        requires nobody { engine.seats ≡ [] }
        requires rests { (s : ℕ) → under_way s engine.past ≡ None }
        ensures { result ≡ (engine, 0) }
    {
        Seats { engine, moment: 0 }
    }

    /// The engine inside.
    pub fn into_engine(self) -> DurableEngine<D, R, L>
        ensures { result ≡ self.0 }
    {
        let Seats { engine, moment: _ } = self;
        engine
    }
}

impl<D: Disk, R: Root, L: SharedLists> Sessions for Seats<D, R, L> {
    ghost shown = { λ e. shown_of e.1 e.0 };

    fn join(&mut self, name: &Bytes) -> Result<u32, NoMemory> {
        self.engine.join(name)
    }

    fn is_working(&self, s: u32) -> bool {
        let _ = self.engine.left(s);
        self.engine.is_working(s)
    }

    fn has_left(&self, s: u32) -> bool {
        self.engine.left(s)
    }

    fn moment(&self) -> u64 {
        self.moment
    }

    fn wait_until(&mut self, moment: u64) {
        self.moment = moment;
    }

    fn start(&mut self, s: u32, item: &Item) -> Result<(), NoMemory> {
        self.engine.start(s, item)
    }

    fn step(&mut self, s: u32) -> Progress {
        self.engine.step(s, self.moment)
    }

    fn leave(&mut self, s: u32) {
        self.engine.leave(s);
    }
}
