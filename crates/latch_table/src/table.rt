//! The table of held latches. The room for all of them is taken when it is made, and none later.
//! The engine makes one at opening; sessions and workers ask it through the trait.

ghost use Rattle.std.specs.Prelude.{◌≡◌, ◌<◌, ◌≤◌, [], length, IfOk};
ghost use Rattle.latch_table.specs.Held as held_latches;

use crate::latches::{Latch, Latched, Latches, MOST_ACTORS, MOST_TARGETS, Target, Targets};
use crate::lists::{give_back, holder_in, is_covered, targets_in};
use inno_types::Mode;
use std::alloc::Global;
use std::marker::Model;
use store_api::NoMemory;

/// The held latches. Contracts see the list of them.
#[derive(Drop)]
pub struct LatchTable {
    held: Vec<Latch>,
}

impl Model for LatchTable {
    ghost use Rattle.std.specs.Prelude.{◌≤◌, List, vec_capacity};
    ghost use Rattle.latch_table.specs.declared.latches.Latch.{Latch as HeldLatch};
    ghost use Rattle.latch_table.specs.Held.{AreSound};

    ghost Value = { List HeldLatch };

    ghost view = { λ t. t.held.items };

    ghost invariant = { λ t. AreSound t.held.items × (4544 ≤ vec_capacity t.held) };
}

impl LatchTable {
    /// No latch is held. It takes the room for as many targets as all actors may hold.
    pub fn new(alloc: Global) -> Result<LatchTable, NoMemory>
        ensures { IfOk result (λ table. table ≡ []) }
    {
        Ok(LatchTable {
            held: Vec::with_capacity(alloc, MOST_ACTORS * MOST_TARGETS)?,
        })
    }

    /// The targets that the actor holds, in order of grant.
    pub fn held_by(&self, actor: u32) -> Targets
        requires { actor < 71 }
        ensures targets { result.items ≡ held_latches.targets_of actor self.now }
        ensures apart { held_latches.AreApart self.now }
    {
        targets_in(&self.held, actor)
    }

    /// Adds the latch. Where the actor holds the target already, it holds it afterwards in the stronger of the two modes.
    fn grant(&mut self, asked: Latch)
        requires known { asked.actor < 71 }
        requires room { length (held_latches.targets_of asked.actor self.old) < 64 }
        requires free { held_latches.IsFree asked self.old }
        ensures granted { self.new ≡ held_latches.with_latch asked self.old }
        ensures apart { held_latches.AreApart self.new }
    {
        if !is_covered(&self.held, &asked) {
            give_back(&mut self.held, asked.actor, asked.target);
            self.held.push_reserved(asked);
        }
    }
}

impl Latches for LatchTable {
    ghost held = { λ table. table };

    fn try_latch(&mut self, actor: u32, target: Target, mode: Mode) -> Latched {
        let asked = Latch {
            actor,
            target,
            mode,
        };
        match holder_in(&self.held, &asked) {
            Some(by) => Latched::Held { by },
            None => {
                self.grant(asked);
                Latched::Granted
            }
        }
    }

    fn release(&mut self, actor: u32, target: Target) {
        give_back(&mut self.held, actor, target);
    }
}
