//! A database: the schemas of its tables and their rows. Contracts see the rows as one finite map.
//! Histories open with one, and the plain interpreter reads one.

ghost use Rattle.std.specs.Prelude.{◌≡◌, ◌≤◌, ◌<◌, ◌↔◌, ◌++◌, ◌∷◌, [], length, vec_len, IsTrue, OnOk, OnErr, Some, slice_get, slice_index_or, slice_set};
ghost use Rattle.inno_types.specs.declared.value.Schema.{Schema};
ghost use Rattle.inno_db.specs.Changes.{apply_one};
ghost use Rattle.inno_db.specs.Keeping.{CanApply, tables_with, tables_without};
ghost use Rattle.inno_db.specs.Database.{database_of, IsInOrder, rows_of};

use crate::change::Change;
use crate::limits::MOST_TABLES;
use crate::rows::{put_row, remove_row};
use inno_types::{Listed, Row, Rows, Schema, Value};
use std::alloc::{AllocError, Global};
use std::marker::Model;
use std::mem;

/// The tables of a database, each with its rows in the order of their keys.
#[derive(Drop)]
pub struct Db {
    schemas: Listed<Schema>,
    tables: Vec<Rows>,
}

impl Model for Db {
    ghost use Rattle.inno_db.specs.Database.{Database, database_code, database_of, IsInOrder};

    ghost Value = { Database };

    ghost coded = { database_code };

    ghost view = { λ d. database_of d.schemas d.tables.items };

    ghost invariant = { λ d. IsInOrder d.schemas d.tables.items };
}

impl Db {
    /// The tables come in the order of the schemas.
    pub fn new(schemas: Listed<Schema>, tables: Listed<Rows>) -> Self
        requires { IsInOrder schemas tables }
        ensures { result ≡ database_of schemas tables }
    {
        Db {
            schemas,
            tables: tables.into_vec(),
        }
    }

    pub fn schemas(&self) -> &Listed<Schema>
        ensures same { result.now ≡ self.now.schemas }
        ensures few { length result.now ≤ MOST_TABLES }
    {
        &self.schemas
    }

    /// The rows of a table, in the order of their keys.
    pub fn rows(&self, table: usize) -> &Rows
        requires { table < length self.now.schemas }
        ensures { result.now ≡ rows_of table self.now }
    {
        &self.tables[table]
    }

    /// Whether there is room for a change, and its table.
    pub fn can_apply(&self, change: &Change) -> bool
        ensures { IsTrue result ↔ CanApply self.now change.now }
    {
        match change {
            Change::Create { .. } => self.schemas.len() < MOST_TABLES,
            Change::Put { table, .. } | Change::Remove { table, .. } => {
                usize::from(*table) < self.schemas.len()
            }
        }
    }

    /// Makes a change. An `Err` changes nothing.
    pub fn apply(&mut self, alloc: Global, change: Change) -> Result<(), AllocError>
        requires { CanApply self.old change }
        ensures ok { OnOk result (self.new ≡ apply_one self.old change) }
        ensures err { OnErr result (self.new ≡ self.old) }
    {
        match change {
            Change::Create { schema } => {
                add_table(alloc, &mut self.schemas, &mut self.tables, schema)?;
                Ok(())
            }
            Change::Put { table, row } => {
                let table = usize::from(table);
                put(alloc, &self.schemas, &mut self.tables, table, row)?;
                Ok(())
            }
            Change::Remove { table, key } => {
                let table = usize::from(table);
                remove(alloc, &self.schemas, &mut self.tables, table, key);
                Ok(())
            }
        }
    }
}

/// Adds a table without rows. An `Err` changes nothing.
fn add_table(
    alloc: Global,
    schemas: &mut Listed<Schema>,
    tables: &mut Vec<Rows>,
    schema: Schema,
) -> Result<(), AllocError>
    ensures ok { OnOk result ((schemas.new ≡ schemas.old ++ schema ∷ []) × (tables.new.items ≡ tables.old.items ++ [] ∷ [])) }
    ensures err { OnErr result ((schemas.new ≡ schemas.old) × (tables.new.items ≡ tables.old.items)) }
{
    tables.push(Listed::new(alloc))?;
    match schemas.push(schema) {
        Ok(()) => Ok(()),
        Err(error) => {
            let _ = tables.pop();
            Err(error)
        }
    }
}

/// Takes the rows of a table out, and leaves none.
fn take_rows(alloc: Global, tables: &mut Vec<Rows>, table: usize) -> Vec<Row>
    requires { table < vec_len tables.old }
    ensures rows { result.items ≡ slice_index_or tables.old.items table [] }
    ensures left { tables.new.items ≡ slice_set tables.old.items table [] }
{
    mem::replace(&mut tables[table], Listed::new(alloc)).into_vec()
}

/// Puts a row into a table, at its key. An `Err` changes nothing.
fn put(
    alloc: Global,
    schemas: &Listed<Schema>,
    tables: &mut Vec<Rows>,
    table: usize,
    row: Row,
) -> Result<(), AllocError>
    requires there { table < length schemas.now }
    requires in_order { IsInOrder schemas.now tables.old.items }
    ensures ok { OnOk result ((schema : Schema) → slice_get schemas.now table ≡ Some schema → tables.new.items ≡ tables_with schema table row tables.old.items) }
    ensures err { OnErr result (tables.new.items ≡ tables.old.items) }
{
    let schema = &schemas.as_slice()[table];
    let mut rows = take_rows(alloc, tables, table);
    let done = put_row(schema, &mut rows, row);
    tables[table] = Listed::from_vec(rows);
    done
}

/// Removes the row of a key from a table, if there is one.
fn remove(alloc: Global, schemas: &Listed<Schema>, tables: &mut Vec<Rows>, table: usize, key: Value)
    requires there { table < length schemas.now }
    requires in_order { IsInOrder schemas.now tables.old.items }
    ensures { (schema : Schema) → slice_get schemas.now table ≡ Some schema → tables.new.items ≡ tables_without schema table key tables.old.items }
{
    let schema = &schemas.as_slice()[table];
    let mut rows = take_rows(alloc, tables, table);
    remove_row(schema, &mut rows, &key);
    tables[table] = Listed::from_vec(rows);
}
