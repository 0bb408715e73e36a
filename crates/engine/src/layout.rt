//! A database is laid down: all its tables first, and then their rows, table by table in the order of the keys.
//! Each row goes behind those that were put before it, so no key comes twice.

ghost use Rattle.std.specs.Prelude.{◌≡◌, ◌<◌, ◌++◌, [], ◌∷◌, Err, IfOk, IsTrue, Some, All, length, slice_get};
ghost use Rattle.std.specs.FinMap.{entries, from_entries, is_sorted};
ghost use Rattle.inno_db.specs.Changes.{apply_one};
ghost use Rattle.inno_db.specs.Database.{place_cmp, placed};
ghost use Rattle.inno_db.specs.declared.change.Change.TheVariants.{Create};
ghost use Rattle.inno_db.specs.declared.limits.TheConstants.{MOST_TABLES};
ghost use Rattle.inno_db.specs.Keyed.{IsKeyed};
ghost use Rattle.law_stored_rows.specs.Storable.{IsStorable};
ghost use Rattle.law_stored_rows.specs.Fitting.{FitsTable};
ghost use Rattle.shared_lists.specs.Fitting.{CanBeCoded};
ghost use Rattle.commit_log.specs.Room.{IsLoggable};
ghost use Rattle.engine.specs.Fit.{IsFit};

use crate::rows::row_fits;
use crate::tables::all_can_be_made;
use crate::{Opening, PutBad};
use inno_db::Db;
use inno_types::{Row, Schema};
use std::alloc::Global;
use store_api::NoMemory;

/// Why a database could not be laid down.
#[derive(Drop)]
pub enum LayBad {
    /// It has a table or a row that no engine of this version writes.
    Unfit,
    NoMemory,
}

/// Lays a database down, table by table and row by row.
pub fn lay(alloc: Global, db: &Db) -> Result<Opening, LayBad>
    requires keyed { IsKeyed db.now }
    ensures laid { IfOk result (λ opening. opening ≡ db.now) }
    ensures loggable { IfOk result (λ opening. All IsLoggable opening.schemas) }
    ensures unfit { result ≡ Err LayBad.Unfit → IsFit db.now → ⊥ }
{
    if !all_can_be_made(db.schemas().as_slice()) {
        return Err(LayBad::Unfit);
    }
    match lay_tables(alloc, db) {
        Ok(opening) => lay_rows(opening, db),
        Err(NoMemory) => Err(LayBad::NoMemory),
    }
}

/// Makes the tables of a database, without their rows.
fn lay_tables(alloc: Global, db: &Db) -> Result<Opening, NoMemory>
    requires { All IsStorable db.now.schemas }
    ensures { IfOk result (λ opening. opening ≡ record { schemas = db.now.schemas; rows = from_entries [] }) }
{
    let mut opening = Opening::new(alloc)?;
    for schema in db.schemas().as_slice() {
        opening = make_table(opening, schema)?;
    }
    Ok(opening)
}

/// Makes a table like this one.
fn make_table(opening: Opening, schema: &Schema) -> Result<Opening, NoMemory>
    requires storable { IsStorable schema.now }
    requires few { length opening.schemas < MOST_TABLES }
    ensures { IfOk result (λ more. more ≡ apply_one opening (Create schema.now)) }
{
    match schema.copied() {
        Ok(schema) => opening.make_table(schema),
        Err(_) => {
            drop(opening);
            Err(NoMemory)
        }
    }
}

/// Puts the rows of a database, whose tables are made.
fn lay_rows(opening: Opening, db: &Db) -> Result<Opening, LayBad>
    requires keyed { IsKeyed db.now }
    requires storable { All IsStorable db.now.schemas }
    requires tables { opening ≡ record { schemas = db.now.schemas; rows = from_entries [] } }
    ensures laid { IfOk result (λ all. all ≡ db.now) }
    ensures unfit { result ≡ Err LayBad.Unfit → CanBeCoded db.now → ⊥ }
{
    let mut opening = opening;
    for (table, schema) in db.schemas().as_slice().iter().enumerate() {
        opening = put_rows(opening, table as u8, schema, db.rows(table).as_slice())?;
    }
    Ok(opening)
}

/// Puts the rows of a table, behind those of the tables before it.
fn put_rows(opening: Opening, table: u8, schema: &Schema, rows: &[Row]) -> Result<Opening, LayBad>
    requires there { slice_get opening.schemas table ≡ Some schema.now }
    requires storable { IsStorable schema.now }
    requires rising { IsTrue (is_sorted place_cmp (entries opening.rows ++ placed table schema.now rows.now)) }
    ensures schemas { IfOk result (λ more. more.schemas ≡ opening.schemas) }
    ensures rows { IfOk result (λ more. entries more.rows ≡ entries opening.rows ++ placed table schema.now rows.now) }
    ensures unfit { result ≡ Err LayBad.Unfit → All (FitsTable schema.now) rows.now → ⊥ }
{
    let mut opening = opening;
    for row in rows {
        opening = put_row(opening, table, schema, row)?;
    }
    Ok(opening)
}

/// Puts a row, behind all others.
fn put_row(opening: Opening, table: u8, schema: &Schema, row: &Row) -> Result<Opening, LayBad>
    requires there { slice_get opening.schemas table ≡ Some schema.now }
    requires storable { IsStorable schema.now }
    requires rising { IsTrue (is_sorted place_cmp (entries opening.rows ++ placed table schema.now (row.now ∷ []))) }
    ensures schemas { IfOk result (λ more. more.schemas ≡ opening.schemas) }
    ensures rows { IfOk result (λ more. entries more.rows ≡ entries opening.rows ++ placed table schema.now (row.now ∷ [])) }
    ensures unfit { result ≡ Err LayBad.Unfit → FitsTable schema.now row.now → ⊥ }
{
    if !row_fits(schema.columns.as_slice(), row.as_slice()) {
        drop(opening);
        return Err(LayBad::Unfit);
    }
    let Ok(copy) = row.copied() else {
        drop(opening);
        return Err(LayBad::NoMemory);
    };
    match opening.put(table, copy) {
        Ok(more) => Ok(more),
        Err(PutBad::RowThere) => unreachable!(),
        Err(PutBad::NoMemory) => Err(LayBad::NoMemory),
    }
}
