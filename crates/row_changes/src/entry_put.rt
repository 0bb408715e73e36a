//! Puts an entry of a secondary key, or takes its mark away where it is there.
//! `keys_change` alone makes one, keeps it between its steps, and drives it to its end.

ghost use Rattle.std.specs.Prelude.{◌≡◌};
ghost use Rattle.world.specs.State.{WorldState};
ghost use Rattle.row_changes.specs.Entries.{IsPutting, PutsEntry, HasLooked};
ghost use Rattle.row_changes.specs.Awaited.{AwaitsNoMore};
ghost use Rattle.store_api.specs.declared.stepped.Stepped.TheVariants.{Went};
ghost use Rattle.row_changes.specs.InPlace.{reached_at};

use inno_types::Bytes;
use std::alloc::Global;
use store_api::{MOST_BYTES_OF_VALUE, Mark, Move, Stepped};
use world::{EngineWorld, World};

/// What is done next.
#[derive(Clone, Copy)]
pub enum PutPhase {
    /// See whether the entry is there, and insert it where it isn't.
    Look,
    /// It is there, perhaps marked.
    Unmark,
}

/// An entry that is being put.
#[derive(Drop)]
pub struct EntryPut {
    pub index: u32,
    pub entry: Bytes,
    pub phase: PutPhase,
}

impl EntryPut {
    pub fn new(index: u32, entry: Bytes) -> EntryPut
        ensures { result ≡ record { index = index; entry = entry; phase = PutPhase.Look } }
    {
        EntryPut {
            index,
            entry,
            phase: PutPhase::Look,
        }
    }

    /// One step. That the entry isn't there is known within a step alone, so it may come between two steps; that it is there asks that
    /// nobody else removes it then.
    pub fn step<W: EngineWorld>(
        &mut self,
        alloc: Global,
        world: &mut W,
        actor: u32,
    ) -> Stepped<(), Move>
        requires { IsPutting (W.state world.old) self.old }
        ensures puts { PutsEntry actor (W.state world.old) (W.state world.new) self.old (reached_at self.new result) }
        ensures awaits { AwaitsNoMore (W.state world.old) (W.state world.new) }
    {
        match self.phase {
            PutPhase::Look => self.look(alloc, world, actor),
            PutPhase::Unmark => self.unmark(alloc, world, actor),
        }
    }

    /// An entry that isn't there is inserted in the same step, by a second call, which the world doesn't put off either.
    fn look<W: EngineWorld>(
        &mut self,
        alloc: Global,
        world: &mut W,
        actor: u32,
    ) -> Stepped<(), Move>
        requires putting { IsPutting (W.state world.old) self.old }
        requires phase { self.old.phase ≡ PutPhase.Look }
        ensures puts { PutsEntry actor (W.state world.old) (W.state world.new) self.old (reached_at self.new result) }
        ensures awaits { AwaitsNoMore (W.state world.old) (W.state world.new) }
    {
        let Ok(mut mark) = Vec::with_capacity(alloc, MOST_BYTES_OF_VALUE) else {
            return Stepped::Hindered(Move::NoMemory);
        };
        match world.fetch(self.index, actor, &self.entry, &mut mark) {
            Move::Done => self.then(PutPhase::Unmark),
            Move::End => self.insert(alloc, world, actor),
            hindrance => Stepped::Hindered(hindrance),
        }
    }

    fn then(&mut self, phase: PutPhase) -> Stepped<(), Move>
        ensures went { result ≡ Went }
        ensures then { self.new ≡ record self.old { phase = phase } }
    {
        self.phase = phase;
        Stepped::Went
    }

    fn unmark<W: World>(&mut self, alloc: Global, world: &mut W, actor: u32) -> Stepped<(), Move>
        requires putting { IsPutting (W.state world.old) self.old }
        requires phase { self.old.phase ≡ PutPhase.Unmark }
        ensures puts { PutsEntry actor (W.state world.old) (W.state world.new) self.old (reached_at self.new result) }
        ensures awaits { AwaitsNoMore (W.state world.old) (W.state world.new) }
    {
        let Ok(value) = vec![in alloc; Mark::Unmarked as u8] else {
            return Stepped::Hindered(Move::NoMemory);
        };
        match world.replace(
            self.index,
            actor,
            &self.entry,
            &Bytes::from_vec(value),
            None,
        ) {
            Move::Done => Stepped::Done(()),
            hindrance => Stepped::Hindered(hindrance),
        }
    }

    /// Where the entry is there after all, the step ends as one that has found it.
    fn insert<W: World>(&mut self, alloc: Global, world: &mut W, actor: u32) -> Stepped<(), Move>
        requires looked { (start : WorldState) × HasLooked actor self.old start (W.state world.old) }
        ensures puts { (start : WorldState) → HasLooked actor self.old start (W.state world.old) → PutsEntry actor start (W.state world.new) self.old (reached_at self.new result) }
        ensures awaits { AwaitsNoMore (W.state world.old) (W.state world.new) }
    {
        let Ok(value) = vec![in alloc; Mark::Unmarked as u8] else {
            return Stepped::Hindered(Move::NoMemory);
        };
        match world.insert(
            self.index,
            actor,
            &self.entry,
            &Bytes::from_vec(value),
            None,
        ) {
            Move::Done => Stepped::Done(()),
            Move::At(..) => self.then(PutPhase::Unmark),
            hindrance => Stepped::Hindered(hindrance),
        }
    }
}
