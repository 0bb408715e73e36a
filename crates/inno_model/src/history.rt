//! The history: what happened, and the names of the sessions. Contracts see the entries newest first,
//! so that to add an entry is to put it in front.

ghost use Rattle.std.specs.Prelude.{◌≡◌, ◌+◌, ◌≤◌, ◌<◌, ◌^◌, [], ◌∷◌, ◌++◌, length, reverse, OnOk, OnErr};
ghost use Rattle.inno_model.specs.Recorded.{Recorded, SameEntries};

use crate::event::Event;
use inno_types::{Bytes, Listed};
use std::alloc::{AllocError, Global};
use std::marker::Model;

/// What happened, the oldest entry first, and the names of the sessions.
#[derive(Drop)]
pub struct History {
    names: Listed<Bytes>,
    events: Vec<Event>,
}

impl Model for History {
    ghost use Rattle.inno_model.specs.Recorded.{Recorded, recorded_code};
    ghost use Rattle.std.specs.Prelude.{◌-◌, vec_len, vec_capacity, reverse};

    ghost Value = { Recorded };

    ghost coded = { recorded_code };

    ghost view = { λ h. record { names = h.names; past = reverse h.events.items; room = vec_capacity h.events - vec_len h.events } };
}

impl History {
    pub fn new(alloc: Global) -> Self
        ensures names { result.names ≡ [] }
        ensures past { result.past ≡ [] }
    {
        History {
            names: Listed::new(alloc),
            events: Vec::new(alloc),
        }
    }

    pub fn names(&self) -> &[Bytes]
        ensures { result.now ≡ self.now.names }
    {
        self.names.as_slice()
    }

    /// The entries, the oldest first.
    pub fn events(&self) -> &[Event]
        ensures { reverse result.now ≡ self.now.past }
    {
        self.events.as_slice()
    }

    /// Adds the name of the next session.
    pub fn add_name(&mut self, name: Bytes) -> Result<(), AllocError>
        ensures ok { OnOk result (self.new ≡ record self.old { names = self.old.names ++ name ∷ [] }) }
        ensures err { OnErr result (self.new ≡ self.old) }
    {
        self.names.push(name)
    }

    /// Takes room for more entries.
    pub fn reserve(&mut self, entries: usize) -> Result<(), AllocError>
        ensures ok { OnOk result (entries ≤ self.new.room) }
        ensures kept { self.old.room ≤ self.new.room }
        ensures same { SameEntries self.old self.new }
        ensures err { OnErr result (self.new ≡ self.old) }
    {
        self.events.reserve(entries)
    }

    /// Adds an entry, for which there is room.
    pub fn add(&mut self, event: Event)
        requires { 0 < self.old.room }
        ensures past { self.new.past ≡ event ∷ self.old.past }
        ensures names { self.new.names ≡ self.old.names }
        ensures room { self.old.room ≤ self.new.room + 1 }
        ensures few { length self.new.past < 2 ^ 63 }
    {
        self.events.push(event).unwrap();
    }
}
