//! The steps by which a table is made: what is open is committed, the statement waits while another session may write, and
//! then its table is made in a transaction of its own, in one step.

ghost use Rattle.std.specs.Prelude.{◌≡◌, ◌<◌, [], length, None, Some, count_by};
ghost use Rattle.inno_db.specs.Outcome.{outcome};
ghost use Rattle.inno_model.specs.Past.{IsOpen};
ghost use Rattle.sql_history.specs.Items.{base};
ghost use Rattle.law_past_agreement.specs.Order.{created};
ghost use Rattle.sql_lists.specs.Steps.{Steps, changes_rows};
ghost use Rattle.sql_lists.specs.Going.{Nears};
ghost use Rattle.create_statement.specs.Making.{Makes};
ghost use Rattle.create_statement.specs.Running.{IsRunning};
ghost use Rattle.create_statement.specs.Going.{to_go};

use crate::ending::finish;
use crate::machine::CreateStatement;
use crate::planning::{is_there, table_to_make};
use inno_types::{Boxed, Level, Schema, Stmt};
use shared_lists::SharedLists;
use sql_lists::{Advance, SqlLists};
use std::alloc::Global;

pub fn step_asked<L: SharedLists>(
    stmt: Boxed<Stmt>,
    level: Level,
    session: u32,
    lists: &mut SqlLists<L>,
) -> (CreateStatement, Advance)
    requires joined { session < length lists.old.names }
    requires running { IsRunning lists.old session (CreateStatement.Asked stmt level) }
    ensures steps { Steps IsRunning session lists.old lists.new result.0 result.1 }
    ensures nears { Nears to_go session lists.old (CreateStatement.Asked stmt level) lists.new result.0 result.1 }
    ensures quiet { count_by changes_rows lists.new.past ≡ count_by changes_rows lists.old.past }
{
    if is_there(lists.schemas(), stmt.get()) {
        return skip(stmt, level, session, lists);
    }
    close(stmt, level, session, lists)
}

/// The table is there: an open transaction is committed all the same.
fn skip<L: SharedLists>(
    stmt: Boxed<Stmt>,
    level: Level,
    session: u32,
    lists: &mut SqlLists<L>,
) -> (CreateStatement, Advance)
    requires joined { session < length lists.old.names }
    requires running { IsRunning lists.old session (CreateStatement.Asked stmt level) }
    requires none { (outcome stmt (base session lists.old.past)).changes ≡ [] }
    ensures steps { Steps IsRunning session lists.old lists.new result.0 result.1 }
    ensures nears { Nears to_go session lists.old (CreateStatement.Asked stmt level) lists.new result.0 result.1 }
    ensures quiet { count_by changes_rows lists.new.past ≡ count_by changes_rows lists.old.past }
{
    if lists.level(session).is_none() {
        return finish(stmt, session, lists);
    }
    lists.commit(session);
    (CreateStatement::Committed { stmt }, Advance::Went)
}

/// Commits what is open before a table is made.
fn close<L: SharedLists>(
    stmt: Boxed<Stmt>,
    level: Level,
    session: u32,
    lists: &mut SqlLists<L>,
) -> (CreateStatement, Advance)
    requires joined { session < length lists.old.names }
    requires running { IsRunning lists.old session (CreateStatement.Asked stmt level) }
    ensures steps { Steps IsRunning session lists.old lists.new result.0 result.1 }
    ensures nears { Nears to_go session lists.old (CreateStatement.Asked stmt level) lists.new result.0 result.1 }
    ensures quiet { count_by changes_rows lists.new.past ≡ count_by changes_rows lists.old.past }
{
    if lists.level(session).is_none() {
        return (CreateStatement::Closed { stmt, level }, Advance::Went);
    }
    lists.commit(session);
    (CreateStatement::Unacked { stmt, level }, Advance::Went)
}

/// Nothing of the session's is open: once nobody else may write the table is made.
pub fn step_closed<L: SharedLists>(
    alloc: Global,
    stmt: Boxed<Stmt>,
    level: Level,
    session: u32,
    lists: &mut SqlLists<L>,
) -> (CreateStatement, Advance)
    requires joined { session < length lists.old.names }
    requires running { IsRunning lists.old session (CreateStatement.Closed stmt level) }
    ensures steps { Steps IsRunning session lists.old lists.new result.0 result.1 }
    ensures nears { Nears to_go session lists.old (CreateStatement.Closed stmt level) lists.new result.0 result.1 }
{
    if let Some(by) = lists.writer() {
        return wait_closed(by, stmt, level, session, lists);
    }
    match table_to_make(alloc, lists.schemas(), stmt.get()) {
        Some(schema) => make(stmt, schema, level, session, lists),
        None => {
            drop(stmt);
            (CreateStatement::Failed, Advance::NoMemory)
        }
    }
}

/// Another session may write: the statement waits for its transaction.
fn wait_closed<L: SharedLists>(
    by: u32,
    stmt: Boxed<Stmt>,
    level: Level,
    session: u32,
    lists: &mut SqlLists<L>,
) -> (CreateStatement, Advance)
    requires joined { (session < length lists.old.names) × (by < length lists.old.names) }
    requires running { IsRunning lists.old session (CreateStatement.Closed stmt level) }
    requires held { (lists.old.writer ≡ Some by) × IsOpen by lists.old.past }
    ensures steps { Steps IsRunning session lists.old lists.new result.0 result.1 }
    ensures nears { Nears to_go session lists.old (CreateStatement.Closed stmt level) lists.new result.0 result.1 }
{
    match lists.edge_to(session, by) {
        Ok(blockers) => (
            CreateStatement::Closed { stmt, level },
            Advance::Waiting { by, blockers },
        ),
        Err(_) => {
            drop(stmt);
            (CreateStatement::Failed, Advance::NoMemory)
        }
    }
}

/// Makes the table, while nobody else may write. Where no memory is found nothing is made.
fn make<L: SharedLists>(
    stmt: Boxed<Stmt>,
    schema: Schema,
    level: Level,
    session: u32,
    lists: &mut SqlLists<L>,
) -> (CreateStatement, Advance)
    requires joined { session < length lists.old.names }
    requires running { IsRunning lists.old session (CreateStatement.Closed stmt level) }
    requires free { lists.old.writer ≡ None }
    requires makes { Makes stmt schema (created lists.old.past) }
    ensures steps { Steps IsRunning session lists.old lists.new result.0 result.1 }
    ensures nears { Nears to_go session lists.old (CreateStatement.Closed stmt level) lists.new result.0 result.1 }
{
    // that the tables stand, and that the history has room, is what the lists say of it
    let _ = lists.history();
    match lists.make_table(session, level, schema) {
        Ok(()) => (CreateStatement::Committed { stmt }, Advance::Went),
        Err(_) => {
            drop(stmt);
            (CreateStatement::Failed, Advance::Went)
        }
    }
}
