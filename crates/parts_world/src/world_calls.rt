//! The calls by which statements and rollback drive a world. Those of indexes, of versions and of undo records are the
//! store's; a transaction ends here once it has ended there.

ghost use Rattle.std.specs.Prelude.{◌≡◌, ◌+◌, ◌<◌, ◌^◌, true, vec_capacity};
ghost use Rattle.lock_table.specs.View.{others, without_transaction};
ghost use Rattle.world_parts.specs.Owed.{bit};

use crate::parts_world::PartsWorld;
use entries::PairBuffers;
use index_store::IndexStore;
use inno_db::Change;
use inno_model::Event;
use inno_types::{Bytes, Ids, Level, Row, Schema, Value};
use lock_table::LockTable;
use row_versions::ChainBad;
use store_api::{Move, NoMemory, Standing, Undo, Version, Visit};
use world::{UndoRoom, World};
use world_parts::{SeenIds, copy_ids, holder, read_undo, take_room, take_room_unless};

/// From this count of rows on no more are let in.
const MANY_ROWS: u64 = 1 << 63;

/// Whether one more row can be counted.
fn may_count(owed: bool, rows: u64) -> bool
    ensures few { result ≡ true → rows < 2 ^ 63 + bit (2 ^ 63) owed }
    ensures sure { owed ≡ true → result ≡ true }
{
    owed || rows < MANY_ROWS
}

/// The transaction has ended: its locks and its request go, and it is no victim any more.
fn give_back(locks: &mut LockTable, fallen: &mut Vec<u64>, txn: u64)
    ensures locks { locks.new ≡ without_transaction txn locks.old }
    ensures items { fallen.new.items ≡ others txn fallen.old.items }
    ensures room { vec_capacity fallen.new ≡ vec_capacity fallen.old }
{
    locks.release_all(txn);
    fallen.retain(|other| *other != txn);
}

impl<I: IndexStore> World for PartsWorld<I> {
    ghost use Rattle.parts_world.specs.Parts.{world_of};

    ghost state = { λ parts. world_of (I.store parts.store) parts };

    fn seek(&mut self, index: u32, actor: u32, from: &Bytes, buffers: &mut PairBuffers) -> Move {
        self.store.seek(index, actor, from, buffers)
    }

    fn following(&mut self, index: u32, actor: u32, buffers: &mut PairBuffers) -> Move {
        self.store.following(index, actor, buffers)
    }

    fn fetch(&mut self, index: u32, actor: u32, key: &Bytes, into: &mut Vec<u8>) -> Move {
        self.store.fetch(index, actor, key, into)
    }

    fn next_key(&mut self, index: u32, actor: u32, key: &Bytes, into: &mut Vec<u8>) -> Move {
        self.store.next_key(index, actor, key, into)
    }

    fn insert(
        &mut self,
        index: u32,
        actor: u32,
        key: &Bytes,
        value: &Bytes,
        undo: Option<&Undo>,
    ) -> Move {
        match undo {
            None => self.store.insert(index, actor, key, value, None),
            Some(undo) => self.insert_logged(index, actor, key, value, undo),
        }
    }

    fn replace(
        &mut self,
        index: u32,
        actor: u32,
        key: &Bytes,
        value: &Bytes,
        undo: Option<&Undo>,
    ) -> Move {
        match undo {
            None => self.store.replace(index, actor, key, value, None),
            Some(undo) => self.replace_logged(index, actor, key, value, undo),
        }
    }

    fn remove(&mut self, index: u32, actor: u32, key: &Bytes) -> Move {
        self.store.remove(index, actor, key)
    }

    fn tidy(&mut self, index: u32, actor: u32) -> Move {
        self.store.tidy(index, actor)
    }

    fn leave(&mut self, index: u32, actor: u32) {
        self.store.leave(index, actor);
    }

    fn version(&mut self, pointer: u64) -> Result<Option<Version>, ChainBad> {
        self.store.version(pointer)
    }

    fn value(&mut self, pointer: u64, into: &mut Vec<u8>) -> Result<bool, Visit> {
        self.store.value(pointer, into)
    }

    fn undo_room(&mut self, actor: u32, bytes: u16) -> Move {
        self.make_room(actor, bytes)
    }

    fn next_pointer(&self, actor: u32) -> u64 {
        self.sessions[actor as usize].next_pointer()
    }

    fn last(&mut self, _actor: u32, slot: u8, into: &mut UndoRoom, there: &mut bool) -> Move {
        *there = read_undo(self.sessions[slot as usize].newest(), into);
        Move::Done
    }

    fn cut_back(&mut self, actor: u32, slot: u8) -> Move {
        let Some((pointer, kind)) = self.sessions[slot as usize].newest_pointer() else {
            unreachable!()
        };
        let answer = self.store.cut_back(actor, u32::from(slot), pointer, kind);
        if let Move::Done = answer {
            self.sessions[slot as usize].cut_back();
        }
        answer
    }

    fn begin(&mut self, s: u32, level: Level) -> Result<u64, NoMemory> {
        let log = Vec::with_capacity(self.alloc, 1)?;
        let txn = self.txns.begin(s, level)?;
        self.sessions[s as usize].begin(txn, level, log);
        Ok(txn)
    }

    fn next_id(&self) -> u64 {
        self.txns.next_id()
    }

    fn give_id(&mut self, txn: u64) -> u64 {
        let id = self.txns.give_id(txn);
        match holder(&self.sessions, txn) {
            Some(s) => self.sessions[s].set_id(id),
            None => {}
        }
        id
    }

    fn active(&self, out: &mut Ids) -> Result<(), NoMemory> {
        self.txns.active(self.alloc, out)
    }

    fn savepoint(&mut self, txn: u64, name: &Bytes, own: u64) -> Result<(), NoMemory> {
        match holder(&self.sessions, txn) {
            Some(s) => self.sessions[s].save(name.copied()?, own),
            None => Ok(()),
        }
    }

    fn find_savepoint(&mut self, txn: u64, name: &Bytes) -> Option<u64> {
        let s = holder(&self.sessions, txn)?;
        let made = self.sessions[s].made_at(name)?;
        self.sessions[s].back_to(name);
        Some(made)
    }

    fn commit(&mut self, s: u32) -> Move {
        let answer = self.store.commit(s);
        if let Move::Done = answer {
            let Some(txn) = self.sessions[s as usize].commit() else {
                unreachable!()
            };
            self.txns.end(txn);
            give_back(&mut self.locks, &mut self.fallen, txn);
            self.history.add(Event::Committed { s });
        }
        answer
    }

    fn roll_back(&mut self, s: u32) -> Move {
        let answer = self.store.roll_back(s);
        if let Move::Done = answer {
            let Some(txn) = self.sessions[s as usize].end() else {
                unreachable!()
            };
            self.txns.end(txn);
            give_back(&mut self.locks, &mut self.fallen, txn);
            self.history.add(Event::RolledBack { s });
        }
        answer
    }

    fn free_log(&mut self, s: u32) -> Move {
        self.store.free_log(s)
    }

    fn event_room(&mut self, s: u32) -> Result<(), NoMemory> {
        if self.rows >= MANY_ROWS {
            return Err(NoMemory);
        }
        take_room(
            &mut self.history,
            &self.sessions,
            self.locks.requests().len(),
            5,
        )?;
        self.sessions[s as usize].let_begin_and_change();
        Ok(())
    }

    fn add_begin(&mut self, s: u32, txn: u64, level: Level) -> Result<(), NoMemory> {
        let owed = self.sessions[s as usize].can_begin();
        take_room_unless(
            owed,
            &mut self.history,
            &self.sessions,
            self.locks.requests().len(),
            3,
        )?;
        self.sessions[s as usize].begun();
        self.history.add(Event::Begin { s, txn, level });
        Ok(())
    }

    fn add_view(&mut self, s: u32, active: &Ids, next: u64) -> Result<(), NoMemory> {
        let active = copy_ids(self.alloc, active)?;
        take_room(
            &mut self.history,
            &self.sessions,
            self.locks.requests().len(),
            1,
        )?;
        self.sessions[s as usize].keep_view(SeenIds { active, next });
        self.history.add(Event::View { s });
        Ok(())
    }

    fn add_put(&mut self, s: u32, table: u8, row: Row) -> Result<(), NoMemory> {
        let owed = self.sessions[s as usize].can_change();
        if !may_count(owed, self.rows) {
            return Err(NoMemory);
        }
        take_room_unless(
            owed,
            &mut self.history,
            &self.sessions,
            self.locks.requests().len(),
            2,
        )?;
        self.sessions[s as usize].changed();
        self.rows += 1;
        let change = Change::Put { table, row };
        self.history.add(Event::Changed { s, change });
        Ok(())
    }

    fn add_remove(&mut self, s: u32, table: u8, key: Value) -> Result<(), NoMemory> {
        let owed = self.sessions[s as usize].can_change();
        take_room_unless(
            owed,
            &mut self.history,
            &self.sessions,
            self.locks.requests().len(),
            2,
        )?;
        self.sessions[s as usize].changed();
        let change = Change::Remove { table, key };
        self.history.add(Event::Changed { s, change });
        Ok(())
    }

    fn add_undone(&mut self, s: u32, keep: u64) {
        self.sessions[s as usize].undone();
        self.history.add(Event::Undone { s, keep });
    }

    fn schema(&self, table: u8) -> Option<&Schema> {
        self.store.tables().as_slice().get(table as usize)
    }

    fn session(&self, s: u32) -> Standing {
        self.sessions[s as usize].standing()
    }

    fn view(&self, s: u32, into: &mut Ids) -> Result<Option<u64>, NoMemory> {
        match self.sessions[s as usize].view() {
            Some(seen) => {
                *into = copy_ids(self.alloc, &seen.active)?;
                Ok(Some(seen.next))
            }
            None => Ok(None),
        }
    }

    fn rows(&self) -> u64 {
        self.rows
    }
}
