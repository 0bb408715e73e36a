//! What a part of a statement does to the rows that were found, by the plain interpreter.
//! `answering` alone asks; the lists are not met, and no row is changed.

ghost use Rattle.std.specs.Prelude.{◌≡◌, None, Some, true, IfOk, reverse};
ghost use Rattle.inno_db.specs.Database.{Database};
ghost use Rattle.inno_db.specs.Outcome.{outcome, table_read};
ghost use Rattle.inno_db.specs.Refusals.{refusal};
ghost use Rattle.plain_sql.specs.Finding.{IsReadFrom};
ghost use Rattle.giving_up.specs.Replies.{is_count};
ghost use Rattle.write_statement.specs.Settling.{IsSettledBy, is_fail};

use inno_db::{Change, Outcome};
use inno_types::{Listed, Reply, Rows, Schema, Stmt};
use plain_sql::plain_on_rows;
use std::alloc::Global;
use store_api::NoMemory;

/// It is refused, by a reply that is there twice; or it has these changes to make, of which the first stands last.
#[derive(Drop)]
pub enum Settled {
    Refused { kept: Reply, given: Reply },
    Todo(Vec<Change>),
}

/// What the part is answered, and what it changes, over any database with these tables whose own table has these rows. It is
/// known that its text and the tables don't refuse it, and which table is its own.
pub fn settle(
    alloc: Global,
    schemas: &Listed<Schema>,
    table: u8,
    rows: &Rows,
    stmt: &Stmt,
) -> Result<Settled, NoMemory>
    requires unrefused { refusal schemas.now stmt.now ≡ None }
    requires table_is { table_read schemas.now stmt.now ≡ Some table }
    ensures { IfOk result (λ settled. (db : Database) → IsReadFrom schemas.now rows.now stmt.now db → IsSettledBy stmt.now db settled) }
{
    let Outcome { reply, changes } = plain_on_rows(alloc, schemas, table, rows, stmt)?;
    if is_count(&reply) {
        let mut todo = changes.into_vec();
        todo.reverse();
        return Ok(Settled::Todo(todo));
    }
    drop(changes);
    let given = copied(&reply)?;
    Ok(Settled::Refused { kept: reply, given })
}

/// Whether the rows were counted: the statement isn't refused.
fn is_count(reply: &Reply) -> bool
    ensures { result ≡ is_count reply.now }
{
    match reply {
        Reply::Count(_) => true,
        Reply::Fail(_)
        | Reply::Done
        | Reply::Rows(_)
        | Reply::RunLimit { .. }
        | Reply::NotSignalled { .. }
        | Reply::Stopped
        | Reply::NoMemory => false,
    }
}

/// A copy of a refusal. A statement that changes rows has no other reply but a count.
fn copied(reply: &Reply) -> Result<Reply, NoMemory>
    ensures same { IfOk result (λ copy. copy ≡ reply.now) }
    ensures failed { IfOk result (λ copy. is_fail copy ≡ true) }
{
    match reply {
        Reply::Fail(_) => Ok(reply.copied()?),
        Reply::Count(_)
        | Reply::Done
        | Reply::Rows(_)
        | Reply::RunLimit { .. }
        | Reply::NotSignalled { .. }
        | Reply::Stopped
        | Reply::NoMemory => Err(NoMemory),
    }
}
