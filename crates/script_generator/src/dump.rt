//! The tables of a database one after another, each with its rows.
//! Others call `dump_text` alone, with a database in memory that it only reads.

ghost use Rattle.std.specs.Prelude.{◌≡◌, ◌++◌, IfOk, OnOk};
ghost use Rattle.std.specs.List.{flat_map};
ghost use Rattle.script_generator.specs.Dump as spelled;

use crate::rows::push_row;
use crate::tables::push_create;
use inno_db::Db;
use inno_types::{Bytes, Listed, Row, Schema};
use std::alloc::{AllocError, Global};
use store_api::NoMemory;

/// The database as SQL. The tables come by their numbers, and the rows of each by their keys.
pub fn dump_text(alloc: Global, db: &Db) -> Result<Bytes, NoMemory>
    ensures { IfOk result (λ bytes. bytes ≡ spelled.text_of db.now) }
{
    let mut out = Vec::new(alloc);
    let schemas = db.schemas().as_slice();
    for (table, schema) in schemas.iter().enumerate() {
        push_table(alloc, &mut out, schema, db.rows(table).as_slice())?;
    }
    Ok(Listed::from_vec(out))
}

#[tactic(auto, unfolding(crate::specs::Dump::table_text))]
fn push_table(
    alloc: Global,
    out: &mut Vec<u8>,
    schema: &Schema,
    rows: &[Row],
) -> Result<(), AllocError>
    ensures { OnOk result (out.new.items ≡ out.old.items ++ spelled.table_text schema.now rows.now) }
{
    push_create(alloc, out, schema)?;
    for row in rows {
        push_row(alloc, out, schema.name.as_slice(), row.as_slice())?;
    }
    Ok(())
}
