//! How a CREATE TABLE ends: done, or for want of memory.
//! Only the machine's steps come here; the reply goes to the history by the lists.

ghost use Rattle.std.specs.Prelude.{◌≡◌, ◌<◌, length, count_by};
ghost use Rattle.inno_types.specs.declared.reply.Reply.TheVariants.{Done as DoneReply};
ghost use Rattle.shared_lists.specs.Tasks.{Idle};
ghost use Rattle.shared_lists.specs.State.{task_of};
ghost use Rattle.sql_lists.specs.Steps.{Steps, changes_rows};
ghost use Rattle.sql_lists.specs.Going.{Nears};
ghost use Rattle.create_statement.specs.Knowing.{IsFinished};
ghost use Rattle.create_statement.specs.Running.{IsRunning};
ghost use Rattle.create_statement.specs.Going.{to_go};

use crate::machine::CreateStatement;
use inno_types::{Boxed, Reply, Stmt};
use shared_lists::SharedLists;
use sql_lists::{Advance, SqlLists};

/// Ends the item of a statement that was done.
pub fn finish<L: SharedLists>(
    stmt: Boxed<Stmt>,
    session: u32,
    lists: &mut SqlLists<L>,
) -> (CreateStatement, Advance)
    requires joined { session < length lists.old.names }
    requires finished { IsFinished session stmt lists.old.past }
    requires idle { task_of session lists.old ≡ Idle }
    ensures steps { Steps IsRunning session lists.old lists.new result.0 result.1 }
    ensures over { result.1 ≡ Advance.Done DoneReply }
    ensures quiet { count_by changes_rows lists.new.past ≡ count_by changes_rows lists.old.past }
{
    lists.end_done(session, stmt.get());
    drop(stmt);
    (CreateStatement::Ended, Advance::Done(Reply::Done))
}

pub fn step_ending<L: SharedLists>(
    stmt: Boxed<Stmt>,
    session: u32,
    lists: &mut SqlLists<L>,
) -> (CreateStatement, Advance)
    requires joined { session < length lists.old.names }
    requires running { IsRunning lists.old session (CreateStatement.Ending stmt) }
    ensures steps { Steps IsRunning session lists.old lists.new result.0 result.1 }
    ensures nears { Nears to_go session lists.old (CreateStatement.Ending stmt) lists.new result.0 result.1 }
    ensures quiet { count_by changes_rows lists.new.past ≡ count_by changes_rows lists.old.past }
{
    finish(stmt, session, lists)
}

pub fn step_failed<L: SharedLists>(
    session: u32,
    lists: &mut SqlLists<L>,
) -> (CreateStatement, Advance)
    requires joined { session < length lists.old.names }
    requires running { IsRunning lists.old session CreateStatement.Failed }
    ensures steps { Steps IsRunning session lists.old lists.new result.0 result.1 }
    ensures nears { Nears to_go session lists.old CreateStatement.Failed lists.new result.0 result.1 }
    ensures quiet { count_by changes_rows lists.new.past ≡ count_by changes_rows lists.old.past }
{
    lists.end(session, Reply::NoMemory);
    (CreateStatement::Ended, Advance::Done(Reply::NoMemory))
}
