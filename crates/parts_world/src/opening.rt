//! How a world in memory begins: without tables, then with those of a database, and at last with a history that opens on
//! it. Only what opens an engine calls this.

ghost use Rattle.std.specs.Prelude.{◌≡◌, ◌<◌, ◌^◌, [], IfOk, OnOk, OnErr};
ghost use Rattle.world.specs.EngineCalls.{IsNew, LaysTable, with_opening};
ghost use Rattle.parts_world.specs.Parts.{world_of};

use crate::parts_world::PartsWorld;
use index_store::MemoryStore;
use inno_db::Db;
use inno_model::{Event, History};
use inno_types::Schema;
use lock_table::LockTable;
use std::alloc::Global;
use store_api::NoMemory;
use txn_table::TxnTable;
use world_parts::take_room;

impl<I: MemoryStore> PartsWorld<I> {
    /// A world without tables, which is yet to be opened. Nobody has joined.
    pub fn new(alloc: Global) -> Result<Self, NoMemory>
        ensures { IfOk result (λ world. IsNew (world_of (I.store world.store) world)) }
    {
        Ok(PartsWorld {
            alloc,
            history: History::new(alloc),
            rows: 0,
            store: I::new(alloc),
            txns: TxnTable::new(alloc, 1)?,
            sessions: Vec::new(alloc),
            locks: LockTable::new(alloc),
            fallen: Vec::new(alloc),
        })
    }

    /// Another table, without rows, of the database that the world will be opened with. The history has no entry of it.
    pub fn lay_table(&mut self, schema: &Schema) -> Result<(), NoMemory>
        ensures ok { OnOk result (LaysTable schema.now (world_of (I.store self.old.store) self.old) (world_of (I.store self.new.store) self.new)) }
        ensures err { OnErr result (world_of (I.store self.new.store) self.new ≡ world_of (I.store self.old.store) self.old) }
    {
        self.store.make_table(schema)
    }

    /// Opens the history on a database of so many rows.
    pub fn open(&mut self, db: Db, rows: u64) -> Result<(), NoMemory>
        requires alone { (world_of (I.store self.old.store) self.old).sessions ≡ [] }
        requires few { rows < 2 ^ 63 }
        ensures ok { OnOk result (world_of (I.store self.new.store) self.new ≡ with_opening db rows (world_of (I.store self.old.store) self.old)) }
        ensures err { OnErr result (world_of (I.store self.new.store) self.new ≡ world_of (I.store self.old.store) self.old) }
    {
        take_room(
            &mut self.history,
            &self.sessions,
            self.locks.requests().len(),
            1,
        )?;
        self.history.add(Event::Opened { db });
        self.rows = rows;
        Ok(())
    }
}
