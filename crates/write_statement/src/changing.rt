//! A statement makes the changes of its parts, one after another, and then ends or commits.
//! The machine alone calls these.

ghost use Rattle.std.specs.Prelude.{◌≡◌, ◌<◌, ◌+◌, ℕ, [], ◌∷◌, ◌++◌, length};
ghost use Rattle.inno_model.specs.declared.event.Event.TheVariants.{Changed as ChangedEvent};
ghost use Rattle.sql_history.specs.Counts.{rows_of_entry};
ghost use Rattle.law_past_agreement.specs.Order.{IsOfRow};
ghost use Rattle.shared_lists.specs.Tasks.{Idle};
ghost use Rattle.shared_lists.specs.State.{task_of};
ghost use Rattle.sql_lists.specs.Steps.{Steps};
ghost use Rattle.sql_lists.specs.Going.{Nears};
ghost use Rattle.write_statement.specs.Going.{to_go, to_change, IsNearer};
ghost use Rattle.write_statement.specs.Parts.{of_rest};
ghost use Rattle.write_statement.specs.Running.{IsRunning, IsChanging, IsMade};

use crate::answering::{give_up, give_up_at, refuse};
use crate::machine::{Part, WriteStatement};
use crate::opening::search_part;
use crate::parting::next_tuple;
use giving_up::{Leaving, commit, end};
use inno_db::Change;
use inno_types::Reply;
use shared_lists::SharedLists;
use sql_lists::{Advance, SqlLists};
use std::alloc::Global;

pub fn step_changing<L: SharedLists>(
    alloc: Global,
    part: Part,
    mut todo: Vec<Change>,
    session: u32,
    lists: &mut SqlLists<L>,
) -> (WriteStatement, Advance)
    requires joined { session < length lists.old.names }
    requires running { IsRunning lists.old session (WriteStatement.Changing part todo) }
    ensures steps { Steps IsRunning session lists.old lists.new result.0 result.1 }
    ensures nears { Nears to_go session lists.old (WriteStatement.Changing part todo) lists.new result.0 result.1 }
{
    match todo.pop() {
        Some(change) => make(change, part, todo, session, lists),
        None => made_all(alloc, part, session, lists),
    }
}

/// There is no room for the next change: the statement gives up before it is begun.
pub fn lack_room<L: SharedLists>(
    part: Part,
    todo: Vec<Change>,
    session: u32,
    lists: &mut SqlLists<L>,
) -> (WriteStatement, Advance)
    requires joined { session < length lists.old.names }
    requires running { IsRunning lists.old session (WriteStatement.Changing part todo) }
    ensures steps { Steps IsRunning session lists.old lists.new result.0 result.1 }
    ensures nears { Nears to_go session lists.old (WriteStatement.Changing part todo) lists.new result.0 result.1 }
    ensures lacks { result.1 ≡ Advance.NoMemory }
{
    drop(todo);
    give_up(part)
}

/// Begins the next change.
fn make<L: SharedLists>(
    change: Change,
    part: Part,
    todo: Vec<Change>,
    session: u32,
    lists: &mut SqlLists<L>,
) -> (WriteStatement, Advance)
    requires joined { session < length lists.old.names }
    requires changing { IsChanging lists.old.past lists.old.writer session part (of_rest part) (todo.items ++ change ∷ []) }
    requires idle { task_of session lists.old ≡ Idle }
    ensures steps { Steps IsRunning session lists.old lists.new result.0 result.1 }
    ensures nears { IsNearer (to_change (length part.later.items) (length todo.items + 1)) session lists.new result.0 result.1 }
{
    match change {
        Change::Put { table, row } => match lists.overfull(1) {
            Some(rows) => break_off(rows, part),
            None => begin(Change::Put { table, row }, 1, part, todo, session, lists),
        },
        Change::Remove { table, key } => begin(
            Change::Remove { table, key },
            0,
            part,
            todo,
            session,
            lists,
        ),
        Change::Create { .. } => give_up(part),
    }
}

/// Begins a change, by which the history will hold so many rows more.
fn begin<L: SharedLists>(
    change: Change,
    rows: u64,
    part: Part,
    todo: Vec<Change>,
    session: u32,
    lists: &mut SqlLists<L>,
) -> (WriteStatement, Advance)
    requires joined { session < length lists.old.names }
    requires changing { IsChanging lists.old.past lists.old.writer session part (of_rest part) (todo.items ++ change ∷ []) }
    requires idle { task_of session lists.old ≡ Idle }
    requires of_row { IsOfRow change }
    requires rows_are { rows ≡ rows_of_entry (ChangedEvent session change) }
    ensures steps { Steps IsRunning session lists.old lists.new result.0 result.1 }
    ensures nears { IsNearer (to_change (length part.later.items) (length todo.items + 1)) session lists.new result.0 result.1 }
{
    // that the change fits its table follows from what the lists say of their history
    let _ = lists.history();
    match lists.begin_change(session, change) {
        Ok(()) => (WriteStatement::Making { part, todo, rows }, Advance::Went),
        Err(_) => give_up(part),
    }
}

/// The history would hold too many rows with the next one: nothing of the statement is to stay.
fn break_off(rows: u64, part: Part) -> (WriteStatement, Advance)
    ensures state { result.0 ≡ WriteStatement.Leaving (Leaving.BackingOut (record { alone = part.alone; before = part.before; kept = Reply.RunLimit rows; given = Reply.RunLimit rows })) }
    ensures answer { result.1 ≡ Advance.Went }
{
    let stopped = refuse(part, Reply::RunLimit { rows }, Reply::RunLimit { rows });
    (stopped, Advance::Went)
}

/// All changes of a part are made. The part of the next tuple begins, or the statement is over.
fn made_all<L: SharedLists>(
    alloc: Global,
    part: Part,
    session: u32,
    lists: &mut SqlLists<L>,
) -> (WriteStatement, Advance)
    requires joined { session < length lists.old.names }
    requires changing { IsChanging lists.old.past lists.old.writer session part (of_rest part) [] }
    requires idle { task_of session lists.old ≡ Idle }
    ensures steps { Steps IsRunning session lists.old lists.new result.0 result.1 }
    ensures nears { IsNearer (to_change (length part.later.items) 0) session lists.new result.0 result.1 }
{
    let Part {
        stmt,
        mut later,
        table,
        alone,
        before,
    } = part;
    let Some(tuple) = later.pop() else {
        drop(stmt);
        return finish(alone, before, session, lists);
    };
    match next_tuple(alloc, stmt, tuple) {
        Ok(stmt) => {
            let part = Part {
                stmt,
                later,
                table,
                alone,
                before,
            };
            search_part(alloc, part, session, lists)
        }
        Err(_) => give_up_at(alone, before),
    }
}

/// All changes are made, and counted. A statement with a transaction of its own commits it.
fn finish<L: SharedLists>(
    alone: bool,
    before: usize,
    session: u32,
    lists: &mut SqlLists<L>,
) -> (WriteStatement, Advance)
    requires joined { session < length lists.old.names }
    requires made { IsMade lists.old.past lists.old.writer session alone before }
    requires idle { task_of session lists.old ≡ Idle }
    ensures steps { Steps IsRunning session lists.old lists.new result.0 result.1 }
    ensures nears { (later : ℕ) → IsNearer (to_change later 0) session lists.new result.0 result.1 }
{
    let made = (lists.change_count(session) - before) as u64;
    let (kept, given) = (Reply::Count(made), Reply::Count(made));
    if alone {
        let (leaving, answer) = commit(kept, given, session, lists);
        return (WriteStatement::Leaving(leaving), answer);
    }
    let (leaving, answer) = end(kept, given, session, lists);
    (WriteStatement::Leaving(leaving), answer)
}
