//! The steps of COMMIT, of SET autocommit that turns it on, and of BEGIN: each commits an open transaction first.
//! The machine (`statement`) alone calls these, by its state.

ghost use Rattle.std.specs.Prelude.{◌≡◌, ◌<◌, length};
ghost use Rattle.sql_lists.specs.Steps.{Steps};
ghost use Rattle.sql_lists.specs.Going.{Nears};
ghost use Rattle.transaction_statements.specs.Running.{IsRunning, begun_at};
ghost use Rattle.transaction_statements.specs.Going.{to_go};

use crate::committer::Committer;
use crate::endings::finish;
use crate::statement::TransactionStatement;
use inno_types::{Level, Stmt};
use shared_lists::SharedLists;
use sql_lists::{Advance, SqlLists};

/// Commits what is open.
pub fn step_committing<L: SharedLists>(
    committer: Committer,
    session: u32,
    lists: &mut SqlLists<L>,
) -> (TransactionStatement, Advance)
    requires joined { session < length lists.old.names }
    requires running { IsRunning lists.old session (TransactionStatement.Committing committer) }
    ensures steps { Steps IsRunning session lists.old lists.new result.0 result.1 }
    ensures nears { Nears to_go session lists.old (TransactionStatement.Committing committer) lists.new result.0 result.1 }
{
    if lists.level(session).is_none() {
        return (TransactionStatement::Closed { committer }, Advance::Went);
    }
    lists.commit(session);
    (TransactionStatement::Unacked { committer }, Advance::Went)
}

/// Nothing is open: BEGIN opens its transaction, and the others are done.
pub fn step_closed<L: SharedLists>(
    committer: Committer,
    session: u32,
    lists: &mut SqlLists<L>,
) -> (TransactionStatement, Advance)
    requires joined { session < length lists.old.names }
    requires running { IsRunning lists.old session (TransactionStatement.Closed committer) }
    ensures steps { Steps IsRunning session lists.old lists.new result.0 result.1 }
    ensures nears { Nears to_go session lists.old (TransactionStatement.Closed committer) lists.new result.0 result.1 }
{
    match committer {
        Committer::Commit => finish(Stmt::Commit, session, lists),
        Committer::TurnOn => finish(Stmt::SetAutocommit(true), session, lists),
        Committer::Begin { snapshot, level } => open_new(snapshot, level, session, lists),
    }
}

/// Opens the transaction of BEGIN.
fn open_new<L: SharedLists>(
    snapshot: bool,
    level: Level,
    session: u32,
    lists: &mut SqlLists<L>,
) -> (TransactionStatement, Advance)
    requires joined { session < length lists.old.names }
    requires running { IsRunning lists.old session (TransactionStatement.Closed (Committer.Begin snapshot level)) }
    ensures steps { Steps IsRunning session lists.old lists.new result.0 result.1 }
    ensures nears { Nears to_go session lists.old (TransactionStatement.Closed (Committer.Begin snapshot level)) lists.new result.0 result.1 }
{
    match lists.begin(session, level) {
        Ok(()) => (begun(snapshot, level), Advance::Went),
        Err(_) => (TransactionStatement::Failed, Advance::NoMemory),
    }
}

/// BEGIN with its transaction open: at REPEATABLE READ, WITH CONSISTENT SNAPSHOT takes a view.
fn begun(snapshot: bool, level: Level) -> TransactionStatement
    ensures { result ≡ begun_at snapshot level }
{
    match level {
        Level::RepeatableRead if snapshot => TransactionStatement::Viewing,
        Level::ReadUncommitted
        | Level::ReadCommitted
        | Level::RepeatableRead
        | Level::Serializable => TransactionStatement::Begun { snapshot },
    }
}

/// Takes the view of WITH CONSISTENT SNAPSHOT.
pub fn step_viewing<L: SharedLists>(
    session: u32,
    lists: &mut SqlLists<L>,
) -> (TransactionStatement, Advance)
    requires joined { session < length lists.old.names }
    requires running { IsRunning lists.old session TransactionStatement.Viewing }
    ensures steps { Steps IsRunning session lists.old lists.new result.0 result.1 }
    ensures nears { Nears to_go session lists.old TransactionStatement.Viewing lists.new result.0 result.1 }
{
    match lists.take_view(session) {
        Ok(()) => (
            TransactionStatement::Begun { snapshot: true },
            Advance::Went,
        ),
        Err(_) => (TransactionStatement::Unviewed, Advance::NoMemory),
    }
}

/// Rolls back the transaction of a BEGIN that found no memory for its view.
pub fn step_unviewed<L: SharedLists>(
    session: u32,
    lists: &mut SqlLists<L>,
) -> (TransactionStatement, Advance)
    requires joined { session < length lists.old.names }
    requires running { IsRunning lists.old session TransactionStatement.Unviewed }
    ensures steps { Steps IsRunning session lists.old lists.new result.0 result.1 }
    ensures nears { Nears to_go session lists.old TransactionStatement.Unviewed lists.new result.0 result.1 }
{
    lists.roll_back(session);
    (TransactionStatement::Failed, Advance::Went)
}

pub fn step_begun<L: SharedLists>(
    snapshot: bool,
    session: u32,
    lists: &mut SqlLists<L>,
) -> (TransactionStatement, Advance)
    requires joined { session < length lists.old.names }
    requires running { IsRunning lists.old session (TransactionStatement.Begun snapshot) }
    ensures steps { Steps IsRunning session lists.old lists.new result.0 result.1 }
    ensures nears { Nears to_go session lists.old (TransactionStatement.Begun snapshot) lists.new result.0 result.1 }
{
    finish(Stmt::Begin { snapshot }, session, lists)
}
