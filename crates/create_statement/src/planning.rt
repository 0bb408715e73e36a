//! Whether a table is there, and the one that is to be made.
//! `asking` alone calls these. They read the schemas and change none.

ghost use Rattle.std.specs.Prelude.{◌≡◌, false, None, IfSome};
ghost use Rattle.inno_db.specs.Refusals.{refusal};
ghost use Rattle.create_statement.specs.Making.{is_there, Makes};

use inno_types::{Listed, Schema, Stmt};
use sql_refusals::refuse;
use sql_values::{declare, place_of_table};
use std::alloc::Global;

/// A table of the statement's name is there.
pub fn is_there(schemas: &Listed<Schema>, stmt: &Stmt) -> bool
    ensures { result ≡ is_there schemas.now stmt.now }
{
    if let Stmt::CreateTable { table, .. } = stmt {
        place_of_table(schemas, table).is_some()
    } else {
        false
    }
}

/// The table that the statement makes among these; none where it makes none, or no memory is found.
pub fn table_to_make(alloc: Global, schemas: &Listed<Schema>, stmt: &Stmt) -> Option<Schema>
    ensures { IfSome result (λ schema. Makes stmt.now schema schemas.now) }
{
    if is_there(schemas, stmt) || is_refused(alloc, schemas, stmt) {
        return None;
    }
    let Stmt::CreateTable {
        table,
        definitions,
        ..
    } = stmt
    else {
        return None;
    };
    declare(alloc, table, definitions).ok()?
}

/// The statement is refused, or no memory is found.
fn is_refused(alloc: Global, schemas: &Listed<Schema>, stmt: &Stmt) -> bool
    ensures { result ≡ false → refusal schemas.now stmt.now ≡ None }
{
    match refuse(alloc, schemas, stmt) {
        Ok(None) => false,
        _ => true,
    }
}
