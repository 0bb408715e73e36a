//! A database that grows table by table and row by row, together with the world that holds it.
//! `lay` and tests make one and put rows into it; `finish` gives the world away, on which an engine opens.

ghost use Rattle.std.specs.Prelude.{◌≡◌, ◌<◌, ◌≢◌, Err, IfErr, IfOk, OnOk, length, slice_get, None, Some};
ghost use Rattle.std.specs.FinMap.{get};
ghost use Rattle.inno_db.specs.Changes.{apply_one};
ghost use Rattle.inno_db.specs.Keeping.{CanApply};
ghost use Rattle.inno_db.specs.Database.{key_in};
ghost use Rattle.inno_db.specs.declared.change.Change.TheVariants.{Create, Put};
ghost use Rattle.inno_db.specs.declared.limits.TheConstants.{MOST_TABLES};
ghost use Rattle.list_world.specs.Parts.{world_of};
ghost use Rattle.law_stored_rows.specs.Storable.{IsStorable};
ghost use Rattle.shared_lists.specs.Fitting.{FitsWell};
ghost use Rattle.engine.specs.Laid.{IsFreshOf, IsTooLarge};
ghost use Rattle.row_changes.specs.Awaited.{AwaitsNobody};
ghost use Rattle.law_crashes.specs.Records.{no_db};

use crate::counting::rows_in;
use crate::keys::{enter_keys, leave_table, put_record};
use inno_db::{Change, Db};
use inno_types::{Listed, Row, Schema};
use list_world::ListWorld;
use std::alloc::Global;
use std::marker::Model;
use store_api::{MOST_ROWS, NoMemory};

/// A database that is being laid down. It is its value in contracts.
#[derive(Drop)]
pub struct Opening {
    alloc: Global,
    db: Db,
    world: ListWorld,
}

impl Model for Opening {
    ghost use Rattle.inno_db.specs.Database.{Database, database_code};
    ghost use Rattle.list_world.specs.Parts.{world_of};
    ghost use Rattle.engine.specs.Laid.{IsLaid};

    ghost Value = { Database };

    ghost coded = { database_code };

    ghost view = { λ o. o.db };

    ghost invariant = { λ o. IsLaid o.db (world_of o.world) };
}

/// Why a row could not be put. What was laid down so far is gone.
#[derive(Drop)]
pub enum PutBad {
    /// The table has a row with this key already.
    RowThere,
    NoMemory,
}

/// Why a database could not be opened.
#[derive(Drop)]
pub enum OpenBad {
    /// It has more rows than a history may hold. They are counted up to 2^64 - 1.
    TooManyRows { rows: u64 },
    NoMemory,
}

impl Opening {
    /// A database without tables.
    pub fn new(alloc: Global) -> Result<Opening, NoMemory>
        ensures ok { IfOk result (λ opening. opening ≡ no_db) }
    {
        Ok(Opening {
            alloc,
            db: Db::new(Listed::new(alloc), Listed::new(alloc)),
            world: ListWorld::new(alloc)?,
        })
    }

    /// With another table, which has no rows yet.
    pub fn make_table(self, schema: Schema) -> Result<Opening, NoMemory>
        requires storable { IsStorable schema }
        requires few { length self.schemas < MOST_TABLES }
        ensures ok { IfOk result (λ opening. opening ≡ apply_one self (Create schema)) }
    {
        let Opening {
            alloc,
            mut db,
            mut world,
        } = self;
        world.lay_table(&schema)?;
        add_change(&mut db, alloc, Change::Create { schema })?;
        Ok(Opening { alloc, db, world })
    }

    /// With another row of a table.
    pub fn put(self, table: u8, row: Row) -> Result<Opening, PutBad>
        requires fits { FitsWell self.schemas (Put table row) }
        ensures ok { IfOk result (λ opening. opening ≡ apply_one self (Put table row)) }
        ensures there { result ≡ Err PutBad.RowThere → get self.rows (table, key_in self.schemas table row) ≢ None }
    {
        let Opening {
            alloc,
            mut db,
            mut world,
        } = self;
        let schema = table_of(&db, table);
        let key = match put_record(alloc, &mut world, table, schema, &row) {
            Ok(key) => key,
            Err(reason) => return Err(reason),
        };
        let keys = schema.keys.len() as u8;
        let Ok(()) = enter_keys(alloc, &mut world, table, key, &row) else {
            return Err(PutBad::NoMemory);
        };
        leave_table(&mut world, table, keys);
        let Ok(()) = add_change(&mut db, alloc, Change::Put { table, row }) else {
            return Err(PutBad::NoMemory);
        };
        Ok(Opening { alloc, db, world })
    }

    /// The world, opened on the database.
    pub fn finish(self) -> Result<ListWorld, OpenBad>
        ensures ok { IfOk result (λ world. IsFreshOf self (world_of world)) }
        ensures nobody { IfOk result (λ world. AwaitsNobody (world_of world)) }
        ensures large { IfErr result (IsTooLarge self) }
    {
        let Opening { db, mut world, .. } = self;
        let rows = rows_in(&db);
        if rows > MOST_ROWS {
            return Err(OpenBad::TooManyRows { rows });
        }
        match world.open(db, rows) {
            Ok(()) => Ok(world),
            Err(_) => Err(OpenBad::NoMemory),
        }
    }
}

/// The table of a number.
fn table_of(db: &Db, table: u8) -> &Schema
    requires { table < length db.now.schemas }
    ensures { slice_get db.now.schemas table ≡ Some result.now }
{
    &db.schemas().as_slice()[usize::from(table)]
}

/// Makes a change of the database itself.
fn add_change(db: &mut Db, alloc: Global, change: Change) -> Result<(), NoMemory>
    requires { CanApply db.old change }
    ensures { OnOk result (db.new ≡ apply_one db.old change) }
{
    db.apply(alloc, change)?;
    Ok(())
}
