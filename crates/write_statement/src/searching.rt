//! A statement searches its table for a part, and then asks what the part does to the rows that were found.
//! The machine alone calls this step.

ghost use Rattle.std.specs.Prelude.{◌≡◌, ◌<◌, ◌+◌, ◌*◌, ℕ, length};
ghost use Rattle.sql_lists.specs.Steps.{Steps};
ghost use Rattle.sql_lists.specs.Going.{Nears, left};
ghost use Rattle.write_statement.specs.Going.{to_go, IsNearer};
ghost use Rattle.write_statement.specs.Running.{IsRunning, IsFound};

use crate::answering::{answer, give_up};
use crate::machine::{Part, WriteStatement};
use inno_types::Rows;
use shared_lists::SharedLists;
use sql_lists::{Advance, SqlLists};
use std::alloc::Global;
use std::mem;
use store_api::Stepped;

/// Makes one step of the search.
pub fn step_searching<L: SharedLists>(
    statement: &mut WriteStatement,
    alloc: Global,
    session: u32,
    lists: &mut SqlLists<L>,
) -> Advance
    requires joined { session < length lists.old.names }
    requires running { IsRunning lists.old session statement.old }
    requires searching { (part : Part) × (statement.old ≡ WriteStatement.Searching part) }
    ensures steps { Steps IsRunning session lists.old lists.new statement.new result }
    ensures nears { Nears to_go session lists.old statement.old lists.new statement.new result }
{
    match lists.search(session) {
        Stepped::Went => Advance::Went,
        Stepped::Done(rows) => {
            let part = statement.part();
            let (next, answer) = answer_found(alloc, part, rows, session, lists);
            drop(mem::replace(statement, next));
            answer
        }
        Stepped::Hindered(_) => {
            let (next, answer) = give_up(statement.part());
            drop(mem::replace(statement, next));
            answer
        }
    }
}

/// All rows are found.
fn answer_found<L: SharedLists>(
    alloc: Global,
    part: Part,
    rows: Rows,
    session: u32,
    lists: &mut SqlLists<L>,
) -> (WriteStatement, Advance)
    requires found { IsFound lists.old session part rows }
    ensures steps { Steps IsRunning session lists.old lists.new result.0 result.1 }
    ensures nears { (first second third : ℕ) → IsNearer (left (5 + 2 * length part.later.items) first second third) session lists.new result.0 result.1 }
{
    // that the rows are enough follows from what the lists say of their history
    let _ = lists.history();
    answer(alloc, part, &rows, session, lists)
}
