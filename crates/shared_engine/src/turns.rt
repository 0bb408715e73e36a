//! The calls by which sessions on threads drive an engine: each is one call of the engine inside, on its board, or a step
//! that lingers.

use crate::engine::{SharedEngine, agree};
use crate::lingering::{lingers, step_of};
use durable_engine::Root;
use inno_types::{Bytes, Item};
use shared_lists::SharedLists;
use store_api::{Disk, NoMemory, Progress};
use turn_engine::Turns;

impl<D: Disk, R: Root, L: SharedLists> Turns for SharedEngine<D, R, L> {
    ghost takes = { λ item. Unit {0} };

    fn join(&mut self, name: &Bytes) -> Result<u32, NoMemory> {
        self.engine.join(name)
    }

    fn start(&mut self, s: u32, item: &Item) -> Result<(), NoMemory> {
        self.engine.start(s, item)
    }

    fn step(&mut self, s: u32, now: u64) -> Progress {
        let progress = step_of(&mut self.engine, &mut self.left, s, now);
        agree(&self.engine, s);
        progress
    }

    fn took(&mut self, microseconds: u64) {
        self.left.hear(microseconds);
    }

    fn leave(&mut self, s: u32) {
        self.engine.leave(s);
    }

    fn lingers(&self, s: u32) -> bool {
        lingers(&self.engine, &self.left, s)
    }

    fn left(&self, s: u32) -> bool {
        self.engine.left(s)
    }

    fn len(&self) -> u64 {
        self.engine.history().events().len() as u64
    }
}
