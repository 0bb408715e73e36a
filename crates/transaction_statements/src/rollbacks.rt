//! The steps of ROLLBACK and of ROLLBACK TO. A change is taken back by several of them.
//! The machine (`statement`) alone calls these; each takes back one step more by the lists (`undo`), or ends the item.

ghost use Rattle.std.specs.Prelude.{◌≡◌, ◌<◌, length};
ghost use Rattle.inno_model.specs.Past.{own, IsOpen};
ghost use Rattle.shared_lists.specs.Tasks.{Idle};
ghost use Rattle.shared_lists.specs.State.{task_of};
ghost use Rattle.sql_lists.specs.Steps.{IsTaken, Steps};
ghost use Rattle.sql_lists.specs.Going.{Nears};
ghost use Rattle.transaction_statements.specs.Running.{IsRunning};
ghost use Rattle.transaction_statements.specs.Going.{to_go};

use crate::endings::finish;
use crate::statement::TransactionStatement;
use inno_types::{Bytes, Stmt};
use shared_lists::SharedLists;
use sql_lists::{Advance, SqlLists};

/// Makes a step of taking a change back, or ends the rollback, or the item once nothing is open.
pub fn step_rollback<L: SharedLists>(
    session: u32,
    lists: &mut SqlLists<L>,
) -> (TransactionStatement, Advance)
    requires joined { session < length lists.old.names }
    requires running { IsRunning lists.old session TransactionStatement.Rollback }
    ensures steps { Steps IsRunning session lists.old lists.new result.0 result.1 }
    ensures nears { Nears to_go session lists.old TransactionStatement.Rollback lists.new result.0 result.1 }
{
    if lists.level(session).is_none() {
        return finish(Stmt::Rollback, session, lists);
    }
    if lists.change_count(session) > 0 {
        return undo_newest(session, lists);
    }
    lists.roll_back(session);
    (TransactionStatement::Rollback, Advance::Went)
}

/// Makes a step by which the newest change is taken back.
fn undo_newest<L: SharedLists>(
    session: u32,
    lists: &mut SqlLists<L>,
) -> (TransactionStatement, Advance)
    requires joined { session < length lists.old.names }
    requires running { IsRunning lists.old session TransactionStatement.Rollback }
    requires is_open { IsOpen session lists.old.past }
    requires some { 0 < length (own session lists.old.past) }
    ensures steps { Steps IsRunning session lists.old lists.new result.0 result.1 }
    ensures nears { Nears to_go session lists.old TransactionStatement.Rollback lists.new result.0 result.1 }
{
    let _undone = lists.undo(session);
    (TransactionStatement::Rollback, Advance::Went)
}

/// Looks the savepoint up.
pub fn new_rollback_to<L: SharedLists>(
    savepoint: Bytes,
    session: u32,
    lists: &SqlLists<L>,
) -> TransactionStatement
    requires joined { session < length lists.now.names }
    requires taken { IsTaken session (Stmt.RollbackTo savepoint) lists.now.past }
    requires idle { task_of session lists.now ≡ Idle }
    ensures { IsRunning lists.now session result }
{
    match lists.setting(session).made_at(&savepoint) {
        Some(made) => TransactionStatement::RollbackTo { savepoint, made },
        None => TransactionStatement::Missing { savepoint },
    }
}

/// Makes a step of taking back a change behind the savepoint, or ends the item where none is left.
pub fn step_rollback_to<L: SharedLists>(
    savepoint: Bytes,
    made: u64,
    session: u32,
    lists: &mut SqlLists<L>,
) -> (TransactionStatement, Advance)
    requires joined { session < length lists.old.names }
    requires running { IsRunning lists.old session (TransactionStatement.RollbackTo savepoint made) }
    ensures steps { Steps IsRunning session lists.old lists.new result.0 result.1 }
    ensures nears { Nears to_go session lists.old (TransactionStatement.RollbackTo savepoint made) lists.new result.0 result.1 }
{
    if lists.level(session).is_some() && lists.change_count(session) as u64 > made {
        return undo_one(savepoint, made, session, lists);
    }
    finish(Stmt::RollbackTo { savepoint }, session, lists)
}

fn undo_one<L: SharedLists>(
    savepoint: Bytes,
    made: u64,
    session: u32,
    lists: &mut SqlLists<L>,
) -> (TransactionStatement, Advance)
    requires joined { session < length lists.old.names }
    requires running { IsRunning lists.old session (TransactionStatement.RollbackTo savepoint made) }
    requires is_open { IsOpen session lists.old.past }
    requires more { made < length (own session lists.old.past) }
    ensures steps { Steps IsRunning session lists.old lists.new result.0 result.1 }
    ensures nears { Nears to_go session lists.old (TransactionStatement.RollbackTo savepoint made) lists.new result.0 result.1 }
{
    let _undone = lists.undo(session);
    (
        TransactionStatement::RollbackTo { savepoint, made },
        Advance::Went,
    )
}
