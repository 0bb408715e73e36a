//! The steps of SAVEPOINT. The machine (`statement`) alone calls them. Without autocommit a transaction is opened
//! first.

ghost use Rattle.std.specs.Prelude.{◌≡◌, ◌<◌, length};
ghost use Rattle.shared_lists.specs.Tasks.{Idle};
ghost use Rattle.shared_lists.specs.State.{task_of};
ghost use Rattle.sql_lists.specs.Steps.{IsTaken, Steps};
ghost use Rattle.sql_lists.specs.Going.{Nears};
ghost use Rattle.transaction_statements.specs.Running.{IsRunning};
ghost use Rattle.transaction_statements.specs.Going.{to_go};

use crate::setter::Setter;
use crate::statement::TransactionStatement;
use inno_types::{Bytes, Level, Reply, Stmt};
use shared_lists::SharedLists;
use sql_lists::{Advance, SqlLists};

/// Outside a transaction a savepoint is not kept where autocommit is on, and opens a transaction where it is off.
pub fn new_savepoint<L: SharedLists>(
    savepoint: Bytes,
    session: u32,
    lists: &SqlLists<L>,
) -> TransactionStatement
    requires joined { session < length lists.now.names }
    requires taken { IsTaken session (Stmt.Savepoint savepoint) lists.now.past }
    requires idle { task_of session lists.now ≡ Idle }
    ensures { IsRunning lists.now session result }
{
    if lists.level(session).is_some() {
        return TransactionStatement::Saving {
            savepoint,
            opened: false,
        };
    }
    let setting = lists.setting(session);
    if setting.autocommit() {
        let setter = Setter::Savepoint { name: savepoint };
        return TransactionStatement::Quiet { setter };
    }
    let level = setting.next_level();
    TransactionStatement::Opening { savepoint, level }
}

/// Opens the transaction of a session without autocommit.
pub fn step_opening<L: SharedLists>(
    savepoint: Bytes,
    level: Level,
    session: u32,
    lists: &mut SqlLists<L>,
) -> (TransactionStatement, Advance)
    requires joined { session < length lists.old.names }
    requires running { IsRunning lists.old session (TransactionStatement.Opening savepoint level) }
    ensures steps { Steps IsRunning session lists.old lists.new result.0 result.1 }
    ensures nears { Nears to_go session lists.old (TransactionStatement.Opening savepoint level) lists.new result.0 result.1 }
{
    match lists.begin(session, level) {
        Ok(()) => {
            let opened = true;
            (
                TransactionStatement::Saving { savepoint, opened },
                Advance::Went,
            )
        }
        Err(_) => (TransactionStatement::Failed, Advance::NoMemory),
    }
}

/// Keeps the savepoint.
pub fn step_saving<L: SharedLists>(
    savepoint: Bytes,
    opened: bool,
    session: u32,
    lists: &mut SqlLists<L>,
) -> (TransactionStatement, Advance)
    requires joined { session < length lists.old.names }
    requires running { IsRunning lists.old session (TransactionStatement.Saving savepoint opened) }
    ensures steps { Steps IsRunning session lists.old lists.new result.0 result.1 }
    ensures nears { Nears to_go session lists.old (TransactionStatement.Saving savepoint opened) lists.new result.0 result.1 }
{
    match lists.end_savepoint(session, &savepoint) {
        Ok(()) => (TransactionStatement::Ended, Advance::Done(Reply::Done)),
        Err(_) => (TransactionStatement::Failed, Advance::NoMemory),
    }
}
