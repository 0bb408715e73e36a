//! A statement makes the steps of one change.
//! The machine alone calls these, while the lists have a change under way for the session.

ghost use Rattle.std.specs.Prelude.{◌≡◌, ◌<◌, length, true};
ghost use Rattle.sql_lists.specs.Steps.{Steps};
ghost use Rattle.sql_lists.specs.Going.{Nears};
ghost use Rattle.write_statement.specs.Going.{to_go};
ghost use Rattle.write_statement.specs.Running.{IsRunning, HasRoomFor, is_at_change};

use crate::answering::{give_up, give_up_for};
use crate::machine::{Part, WriteStatement};
use inno_db::Change;
use shared_lists::{ChangePart, SharedLists};
use sql_lists::{Advance, SqlLists};
use std::mem;
use store_api::Stepped;

/// Makes a step of a change that the history doesn't tell yet, and by which it will hold so many rows more.
pub fn step_making<L: SharedLists>(
    statement: &mut WriteStatement,
    rows: u64,
    session: u32,
    lists: &mut SqlLists<L>,
) -> Advance
    requires joined { session < length lists.old.names }
    requires running { IsRunning lists.old session statement.old }
    requires making { (part : Part) × (todo : _) × (statement.old ≡ WriteStatement.Making part todo rows) }
    ensures steps { Steps IsRunning session lists.old lists.new statement.new result }
    ensures nears { Nears to_go session lists.old statement.old lists.new statement.new result }
{
    match lists.overfull(rows) {
        // Since the change was begun, replies to others have filled the history.
        Some(_) => {
            let (part, todo) = statement.parts();
            let (next, answer) = stop_making(part, todo, rows, session, lists);
            drop(mem::replace(statement, next));
            answer
        }
        None => step_change(statement, session, lists),
    }
}

/// Gives up the change, which the history doesn't tell, and the statement with it.
pub fn stop_making<L: SharedLists>(
    part: Part,
    todo: Vec<Change>,
    _rows: u64,
    session: u32,
    lists: &mut SqlLists<L>,
) -> (WriteStatement, Advance)
    requires joined { session < length lists.old.names }
    requires running { IsRunning lists.old session (WriteStatement.Making part todo _rows) }
    ensures steps { Steps IsRunning session lists.old lists.new result.0 result.1 }
    ensures nears { Nears to_go session lists.old (WriteStatement.Making part todo _rows) lists.new result.0 result.1 }
    ensures lacks { result.1 ≡ Advance.NoMemory }
{
    drop(todo);
    lists.stop_change(session);
    give_up(part)
}

/// Makes a step of a change, for which the history has room where it doesn't tell it yet.
pub fn step_change<L: SharedLists>(
    statement: &mut WriteStatement,
    session: u32,
    lists: &mut SqlLists<L>,
) -> Advance
    requires joined { session < length lists.old.names }
    requires running { IsRunning lists.old session statement.old }
    requires changing { is_at_change statement.old ≡ true }
    requires within { HasRoomFor statement.old lists.old.past }
    ensures steps { Steps IsRunning session lists.old lists.new statement.new result }
    ensures nears { Nears to_go session lists.old statement.old lists.new statement.new result }
{
    // that the row of a removal is there follows from what the lists say of their history
    let _ = lists.history();
    match lists.change(session) {
        Stepped::Went => Advance::Went,
        Stepped::Done(ChangePart::Record) => {
            let (part, todo) = statement.parts();
            drop(mem::replace(statement, WriteStatement::Finishing { part, todo }));
            Advance::Went
        }
        Stepped::Done(ChangePart::Keys) => {
            let (part, todo) = statement.parts();
            drop(mem::replace(statement, WriteStatement::Changing { part, todo }));
            Advance::Went
        }
        Stepped::Hindered(why) => {
            let (part, todo) = statement.parts();
            drop(todo);
            let (next, answer) = give_up_for(why, part);
            drop(mem::replace(statement, next));
            answer
        }
    }
}
