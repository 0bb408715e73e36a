//! Copies of what stands in a history: the database of its opening, and its changes.
//! `commits` alone asks for them. A copy takes memory, and shares nothing with the history.

ghost use Rattle.std.specs.Prelude.{◌≡◌, ◌≤◌, ◌++◌, map, reverse, IfOk, OnOk, length};
ghost use Rattle.inno_db.specs.declared.limits.TheConstants.{MOST_TABLES};
ghost use Rattle.inno_db.specs.declared.change.Change.TheVariants.{Create, Put};
ghost use Rattle.inno_db.specs.Keyed.{IsKeyed};
ghost use Rattle.run_outcome.specs.Tables.{puts_below};

use crate::changes::make_from_back;
use inno_db::{Change, Db};
use inno_types::{Listed, Rows, Value};
use std::alloc::Global;
use store_api::NoMemory;

/// The same database, where its rows stand at their keys. It is made by its changes: the tables first, and then each row.
pub(crate) fn copied_db(alloc: Global, db: &Db) -> Result<Db, NoMemory>
    ensures { IfOk result (λ copy. IsKeyed db.now → copy ≡ db.now) }
{
    let mut copy = Db::new(Listed::new(alloc), Listed::new(alloc));
    let creations = creations_of(alloc, db)?;
    make_from_back(alloc, &mut copy, creations)?;
    let puts = puts_of(alloc, db)?;
    make_from_back(alloc, &mut copy, puts)?;
    Ok(copy)
}

/// The changes that make its tables, the last of them in front.
fn creations_of(alloc: Global, db: &Db) -> Result<Vec<Change>, NoMemory>
    ensures { IfOk result (λ changes. changes.items ≡ reverse (map Create db.now.schemas)) }
{
    let mut changes = Vec::new(alloc);
    for schema in db.schemas().as_slice() {
        let schema = schema.copied()?;
        changes.push(Change::Create { schema })?;
    }
    changes.reverse();
    Ok(changes)
}

/// The changes that put its rows, table by table.
fn puts_of(alloc: Global, db: &Db) -> Result<Vec<Change>, NoMemory>
    ensures changes { IfOk result (λ changes. changes.items ≡ puts_below (length db.now.schemas) db.now) }
    ensures few { length db.now.schemas ≤ MOST_TABLES }
{
    let mut changes = Vec::new(alloc);
    for table in 0..db.schemas().len() {
        push_puts(&mut changes, table as u8, db.rows(table))?;
    }
    Ok(changes)
}

/// Adds the changes that put the rows of a table.
fn push_puts(changes: &mut Vec<Change>, table: u8, rows: &Rows) -> Result<(), NoMemory>
    ensures { OnOk result (changes.new.items ≡ changes.old.items ++ map (Put table) rows.now) }
{
    for row in rows.as_slice() {
        let row = row.copied()?;
        changes.push(Change::Put { table, row })?;
    }
    Ok(())
}

/// The same change.
pub(crate) fn copied_change(change: &Change) -> Result<Change, NoMemory>
    ensures { IfOk result (λ copy. copy ≡ change.now) }
{
    Ok(match change {
        Change::Create { schema } => Change::Create {
            schema: schema.copied()?,
        },
        Change::Put { table, row } => Change::Put {
            table: *table,
            row: row.copied()?,
        },
        Change::Remove { table, key } => Change::Remove {
            table: *table,
            key: copied_value(key)?,
        },
    })
}

fn copied_value(value: &Value) -> Result<Value, NoMemory>
    ensures { IfOk result (λ copy. copy ≡ value.now) }
{
    Ok(match value {
        Value::Null => Value::Null,
        Value::Int(n) => Value::Int(*n),
        Value::Text(bytes) => Value::Text(bytes.copied()?),
    })
}
