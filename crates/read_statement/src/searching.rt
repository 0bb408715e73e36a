//! How a SELECT searches its table by its view.
//! `machine` alone calls this step: one step of the search that the lists keep, which adds no entry.

ghost use Rattle.std.specs.Prelude.{◌≡◌, ◌<◌, length};
ghost use Rattle.sql_lists.specs.Going.{Nears};
ghost use Rattle.sql_lists.specs.Steps.{Steps};
ghost use Rattle.read_statement.specs.Going.{to_go};
ghost use Rattle.read_statement.specs.Running.{IsRunning};

use crate::machine::{Found, Read, ReadStatement};
use giving_up::Leaving;
use shared_lists::SharedLists;
use sql_lists::{Advance, SqlLists};
use std::mem;
use store_api::Stepped;

/// Makes one step of the search, whose rows are kept when it is over.
pub fn step_searching<L: SharedLists>(
    statement: &mut ReadStatement,
    session: u32,
    lists: &mut SqlLists<L>,
) -> Advance
    requires joined { session < length lists.old.names }
    requires running { IsRunning lists.old session statement.old }
    requires searching { (read : Read) × (statement.old ≡ ReadStatement.Searching read) }
    ensures steps { Steps IsRunning session lists.old lists.new statement.new result }
    ensures nears { Nears to_go session lists.old statement.old lists.new statement.new result }
{
    // each change is of a table that is there
    let _ = lists.history();
    match lists.search(session) {
        Stepped::Went => Advance::Went,
        Stepped::Done(rows) => {
            let Read { stmt, table, alone } = statement.read();
            let found = Found {
                stmt,
                table,
                alone,
                rows,
            };
            drop(mem::replace(statement, ReadStatement::Found(found)));
            Advance::Went
        }
        Stepped::Hindered(_) => {
            let read = statement.read();
            let alone = read.alone;
            drop(read);
            let next = ReadStatement::Leaving(Leaving::Failed { alone });
            drop(mem::replace(statement, next));
            Advance::NoMemory
        }
    }
}
