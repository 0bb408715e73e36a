//! How a SELECT opens its transaction, takes its view, and begins to search by it.
//! `machine` alone calls these steps. Each adds at most one entry to the history.

ghost use Rattle.std.specs.Prelude.{◌≡◌, ◌<◌, length};
ghost use Rattle.law_past_agreement.specs.Order.{created};
ghost use Rattle.sql_lists.specs.Going.{Nears};
ghost use Rattle.sql_lists.specs.Steps.{Steps};
ghost use Rattle.read_statement.specs.Going.{to_go};
ghost use Rattle.read_statement.specs.Planning.{IsPlanned};
ghost use Rattle.read_statement.specs.Running.{IsRunning, MayTakeView};

use crate::dirty::step_dirty;
use crate::machine::{Asked, Read, ReadStatement};
use crate::planning::{Planned, plan_search};
use giving_up::Leaving;
use inno_types::{Boxed, Level, Stmt};
use shared_lists::{Reading, SharedLists};
use sql_lists::{Advance, SqlLists};
use std::alloc::Global;

/// Opens a transaction where none is open: one of its own, where the session commits each statement.
pub fn step_opening<L: SharedLists>(
    asked: Asked,
    session: u32,
    lists: &mut SqlLists<L>,
) -> (ReadStatement, Advance)
    requires joined { session < length lists.old.names }
    requires running { IsRunning lists.old session (ReadStatement.Opening asked) }
    ensures steps { Steps IsRunning session lists.old lists.new result.0 result.1 }
    ensures nears { Nears to_go session lists.old (ReadStatement.Opening asked) lists.new result.0 result.1 }
{
    let Asked {
        stmt,
        autocommit,
        level,
    } = asked;
    if lists.level(session).is_some() {
        let alone = false;
        return (ReadStatement::Open { stmt, alone }, Advance::Went);
    }
    match lists.begin(session, level) {
        Ok(()) => {
            let alone = autocommit;
            (ReadStatement::Open { stmt, alone }, Advance::Went)
        }
        Err(_) => {
            drop(stmt);
            (
                ReadStatement::Leaving(Leaving::Failed { alone: false }),
                Advance::NoMemory,
            )
        }
    }
}

/// Takes the view, where the level asks for one; at READ UNCOMMITTED it reads without.
pub fn step_open<L: SharedLists>(
    alloc: Global,
    stmt: Boxed<Stmt>,
    alone: bool,
    session: u32,
    lists: &mut SqlLists<L>,
) -> (ReadStatement, Advance)
    requires joined { session < length lists.old.names }
    requires running { IsRunning lists.old session (ReadStatement.Open stmt alone) }
    ensures steps { Steps IsRunning session lists.old lists.new result.0 result.1 }
    ensures nears { Nears to_go session lists.old (ReadStatement.Open stmt alone) lists.new result.0 result.1 }
{
    match lists.level(session) {
        Some(Level::ReadCommitted) => view_first(stmt, alone, session, lists),
        Some(Level::RepeatableRead) => {
            if lists.has_view(session) {
                return (ReadStatement::Viewed { stmt, alone }, Advance::Went);
            }
            view_first(stmt, alone, session, lists)
        }
        Some(Level::ReadUncommitted) => step_dirty(alloc, stmt, alone, session, lists),
        // A transaction is open here, and a SELECT at SERIALIZABLE was refused before.
        Some(Level::Serializable) | None => {
            drop(stmt);
            (
                ReadStatement::Leaving(Leaving::Failed { alone }),
                Advance::NoMemory,
            )
        }
    }
}

/// Takes the view.
fn view_first<L: SharedLists>(
    stmt: Boxed<Stmt>,
    alone: bool,
    session: u32,
    lists: &mut SqlLists<L>,
) -> (ReadStatement, Advance)
    requires joined { session < length lists.old.names }
    requires running { IsRunning lists.old session (ReadStatement.Open stmt alone) }
    requires takes { MayTakeView session lists.old.past }
    ensures steps { Steps IsRunning session lists.old lists.new result.0 result.1 }
    ensures nears { Nears to_go session lists.old (ReadStatement.Open stmt alone) lists.new result.0 result.1 }
{
    match lists.take_view(session) {
        Ok(()) => (ReadStatement::Viewed { stmt, alone }, Advance::Went),
        Err(_) => {
            drop(stmt);
            (
                ReadStatement::Leaving(Leaving::Failed { alone }),
                Advance::NoMemory,
            )
        }
    }
}

/// Begins to search by the view.
pub fn step_viewed<L: SharedLists>(
    alloc: Global,
    stmt: Boxed<Stmt>,
    alone: bool,
    session: u32,
    lists: &mut SqlLists<L>,
) -> (ReadStatement, Advance)
    requires joined { session < length lists.old.names }
    requires running { IsRunning lists.old session (ReadStatement.Viewed stmt alone) }
    ensures steps { Steps IsRunning session lists.old lists.new result.0 result.1 }
    ensures nears { Nears to_go session lists.old (ReadStatement.Viewed stmt alone) lists.new result.0 result.1 }
{
    match plan_search(alloc, stmt.get(), lists) {
        Ok(planned) => begin_search(planned, stmt, alone, session, lists),
        Err(_) => {
            drop(stmt);
            (
                ReadStatement::Leaving(Leaving::Failed { alone }),
                Advance::NoMemory,
            )
        }
    }
}

/// Begins a search as it is planned.
fn begin_search<L: SharedLists>(
    planned: Planned,
    stmt: Boxed<Stmt>,
    alone: bool,
    session: u32,
    lists: &mut SqlLists<L>,
) -> (ReadStatement, Advance)
    requires joined { session < length lists.old.names }
    requires running { IsRunning lists.old session (ReadStatement.Viewed stmt alone) }
    requires planned { IsPlanned (created lists.old.past) stmt planned.table planned.plan }
    ensures steps { Steps IsRunning session lists.old lists.new result.0 result.1 }
    ensures nears { Nears to_go session lists.old (ReadStatement.Viewed stmt alone) lists.new result.0 result.1 }
{
    let Planned { table, plan } = planned;
    match lists.begin_search(session, table, plan, Reading::View) {
        Ok(()) => (
            ReadStatement::Searching(Read { stmt, table, alone }),
            Advance::Went,
        ),
        Err(_) => {
            drop(stmt);
            (
                ReadStatement::Leaving(Leaving::Failed { alone }),
                Advance::NoMemory,
            )
        }
    }
}
