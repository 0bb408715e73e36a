//! The calls of a world that the engine alone makes: it joins sessions, starts and ends items, and makes tables. So far
//! its store is one in memory. `world_lists` makes them for the engine, through `EngineWorld`.

ghost use Rattle.parts_world.specs.AtHand.{at_hand};

use crate::parts_world::PartsWorld;
use index_store::MemoryStore;
use inno_db::Change;
use inno_model::{Event, History};
use inno_types::{Bytes, Item, Listed, Reply, Schema, Stmt};
use sql_history::{SessionSettings, rows_of_reply};
use store_api::NoMemory;
use world::EngineWorld;
use world_parts::{SessionRoom, take_room};

impl<I: MemoryStore> EngineWorld for PartsWorld<I> {
    ghost never_delays = { λ parts. at_hand (I.store parts.store) parts (I.never_delays parts.store) };

    fn history(&self) -> &History {
        // It does nothing, and tells that there are fewer than 2 ^ 63.
        let _ = self.history.events().len();
        &self.history
    }

    fn into_history(self) -> History {
        let PartsWorld { history, .. } = self;
        history
    }

    fn tables(&self) -> &Listed<Schema> {
        self.store.tables()
    }

    fn settings(&self, s: u32) -> &SessionSettings {
        self.sessions[s as usize].settings()
    }

    fn has_view(&self, s: u32) -> bool {
        self.sessions[s as usize].view().is_some()
    }

    fn join(&mut self, name: Bytes) -> Result<u32, NoMemory> {
        let s = self.sessions.len() as u32;
        self.sessions.reserve(1)?;
        self.history.add_name(name)?;
        self.sessions.push(SessionRoom::new(self.alloc)).unwrap();
        Ok(s)
    }

    fn start(&mut self, s: u32, j: u32, item: Item) -> Result<(), NoMemory> {
        take_room(
            &mut self.history,
            &self.sessions,
            self.locks.requests().len(),
            2,
        )?;
        self.sessions[s as usize].let_reply(true);
        self.history.add(Event::Started { s, j, item });
        Ok(())
    }

    fn end_item(&mut self, s: u32, j: u32, reply: Reply) {
        self.sessions[s as usize].let_reply(false);
        self.rows += rows_of_reply(&reply);
        self.history.add(Event::Ended { s, j, reply });
    }

    fn ack(&mut self, s: u32, moment: u64) {
        self.sessions[s as usize].acknowledge();
        self.history.add(Event::Acked { s, moment });
    }

    fn add_signal(&mut self, name: Bytes) -> Result<(), NoMemory> {
        take_room(
            &mut self.history,
            &self.sessions,
            self.locks.requests().len(),
            1,
        )?;
        self.history.add(Event::Signal { name });
        Ok(())
    }

    fn set(&mut self, s: u32, stmt: &Stmt) {
        self.sessions[s as usize].set(stmt);
    }

    fn add_table(&mut self, s: u32, schema: Schema) -> Result<(), NoMemory> {
        let Ok(()) = take_room(
            &mut self.history,
            &self.sessions,
            self.locks.requests().len(),
            2,
        ) else {
            drop(schema);
            return Err(NoMemory);
        };
        let Ok(()) = self.store.make_table(&schema) else {
            drop(schema);
            return Err(NoMemory);
        };
        self.sessions[s as usize].made_table();
        let change = Change::Create { schema };
        self.history.add(Event::Changed { s, change });
        Ok(())
    }
}
