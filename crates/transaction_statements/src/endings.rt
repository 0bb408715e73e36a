//! How items of statements on transactions end.
//! `statement` calls the steps; `commits` and `rollbacks` end their items by `finish`.

ghost use Rattle.std.specs.Prelude.{◌≡◌, ◌<◌, length};
ghost use Rattle.inno_types.specs.declared.reply.Reply.TheVariants.{Done as DoneReply};
ghost use Rattle.shared_lists.specs.Tasks.{Idle};
ghost use Rattle.shared_lists.specs.State.{task_of};
ghost use Rattle.sql_lists.specs.Steps.{Steps};
ghost use Rattle.sql_lists.specs.Going.{Nears};
ghost use Rattle.transaction_statements.specs.Knowing.{IsFinished};
ghost use Rattle.transaction_statements.specs.Running.{IsRunning};
ghost use Rattle.transaction_statements.specs.Going.{to_go};

use crate::setter::Setter;
use crate::statement::TransactionStatement;
use inno_types::{Bytes, Reply, SqlError, Stmt};
use shared_lists::SharedLists;
use sql_lists::{Advance, SqlLists};

/// Ends the item of a statement that was done.
pub fn finish<L: SharedLists>(
    stmt: Stmt,
    session: u32,
    lists: &mut SqlLists<L>,
) -> (TransactionStatement, Advance)
    requires joined { session < length lists.old.names }
    requires finished { IsFinished session stmt lists.old.past }
    requires idle { task_of session lists.old ≡ Idle }
    ensures steps { Steps IsRunning session lists.old lists.new result.0 result.1 }
    ensures over { result.1 ≡ Advance.Done DoneReply }
{
    lists.end_done(session, &stmt);
    drop(stmt);
    (TransactionStatement::Ended, Advance::Done(Reply::Done))
}

pub fn step_quiet<L: SharedLists>(
    setter: Setter,
    session: u32,
    lists: &mut SqlLists<L>,
) -> (TransactionStatement, Advance)
    requires joined { session < length lists.old.names }
    requires running { IsRunning lists.old session (TransactionStatement.Quiet setter) }
    ensures steps { Steps IsRunning session lists.old lists.new result.0 result.1 }
    ensures nears { Nears to_go session lists.old (TransactionStatement.Quiet setter) lists.new result.0 result.1 }
{
    finish(setter.into_stmt(), session, lists)
}

/// A savepoint that is not there refuses its statement.
pub fn step_missing<L: SharedLists>(
    savepoint: Bytes,
    session: u32,
    lists: &mut SqlLists<L>,
) -> (TransactionStatement, Advance)
    requires joined { session < length lists.old.names }
    requires running { IsRunning lists.old session (TransactionStatement.Missing savepoint) }
    ensures steps { Steps IsRunning session lists.old lists.new result.0 result.1 }
    ensures nears { Nears to_go session lists.old (TransactionStatement.Missing savepoint) lists.new result.0 result.1 }
{
    lists.end(session, Reply::Fail(SqlError::NoSavepoint));
    let given = Reply::Fail(SqlError::NoSavepoint);
    (TransactionStatement::Ended, Advance::Done(given))
}

/// A statement that found no memory ends, and leaves what it may.
pub fn step_failed<L: SharedLists>(
    session: u32,
    lists: &mut SqlLists<L>,
) -> (TransactionStatement, Advance)
    requires joined { session < length lists.old.names }
    requires running { IsRunning lists.old session TransactionStatement.Failed }
    ensures steps { Steps IsRunning session lists.old lists.new result.0 result.1 }
    ensures nears { Nears to_go session lists.old TransactionStatement.Failed lists.new result.0 result.1 }
{
    lists.end(session, Reply::NoMemory);
    (TransactionStatement::Ended, Advance::Done(Reply::NoMemory))
}
