//! The database that the changes of a log make.
//! Each change is tested against the tables that were made before it; rows are not tested against their columns.

ghost use Rattle.std.specs.Prelude.{◌≡◌, OnOk, IfOk};
ghost use Rattle.inno_db.specs.Changes.{apply_one};
ghost use Rattle.inno_db.specs.Keyed.{IsKeyed};
ghost use Rattle.inno_model.specs.Past.{changed};
ghost use Rattle.sql_history.specs.Counts.{rows_in, capped};
ghost use Rattle.law_crashes.specs.Records.{change_of, changes_of, changes_in, no_db};

use inno_db::{Change, Db, of_value, to_value};
use inno_types::Listed;
use log_format::{Group, Record};
use std::alloc::Global;
use store_api::NoMemory;

/// Makes a change of a table that is there, or another table where there is room for one.
fn apply_change(alloc: Global, db: &mut Db, change: Change) -> Result<(), NoMemory>
    ensures made { OnOk result (db.new ≡ apply_one db.old change) }
    ensures keyed { OnOk result (IsKeyed db.old → IsKeyed db.new) }
{
    if !db.can_apply(&change) {
        drop(change);
        return Err(NoMemory);
    }
    db.apply(alloc, change)?;
    Ok(())
}

/// Makes the change that a record tells. One of a page tells none.
fn apply_record(alloc: Global, db: &mut Db, told: &Record) -> Result<(), NoMemory>
    ensures made { OnOk result (db.new ≡ changed db.old (change_of told.now)) }
    ensures keyed { OnOk result (IsKeyed db.old → IsKeyed db.new) }
{
    match told {
        Record::Put { .. } | Record::Fresh { .. } => Ok(()),
        Record::RowPut { table, row } => {
            let table = *table;
            let row = row.copied()?;
            apply_change(alloc, db, Change::Put { table, row })
        }
        Record::RowRemove { table, key } => {
            let table = *table;
            let key = to_value(of_value(key))?;
            apply_change(alloc, db, Change::Remove { table, key })
        }
        Record::NewTable { schema } => {
            let schema = schema.copied()?;
            apply_change(alloc, db, Change::Create { schema })
        }
    }
}

/// Makes the changes of a group.
fn apply_records(alloc: Global, db: &mut Db, records: &[Record]) -> Result<(), NoMemory>
    ensures made { OnOk result (db.new ≡ changed db.old (changes_of records.now)) }
    ensures keyed { OnOk result (IsKeyed db.old → IsKeyed db.new) }
{
    for told in records {
        apply_record(alloc, db, told)?;
    }
    Ok(())
}

/// The database that these groups make.
pub fn database_of(alloc: Global, groups: &[Group]) -> Result<Db, NoMemory>
    ensures made { IfOk result (λ db. db ≡ changed no_db (changes_in groups.now)) }
    ensures keyed { IfOk result IsKeyed }
{
    let mut db = Db::new(Listed::new(alloc), Listed::new(alloc));
    for group in groups {
        apply_records(alloc, &mut db, group.records.as_slice())?;
    }
    Ok(db)
}

/// The number of rows of all tables.
pub fn rows_in(db: &Db) -> u64
    ensures { result ≡ capped (rows_in db.now) }
{
    let mut rows = 0u64;
    for table in 0..db.schemas().len() {
        rows = rows.saturating_add(db.rows(table).len() as u64);
    }
    rows
}
