//! How a SELECT at READ UNCOMMITTED reads: the newest rows of its table, committed or not, all in one step.
//! Only `opening` comes here, where the other levels take a view and search by it.

ghost use Rattle.std.specs.Prelude.{◌≡◌, ◌≢◌, ◌<◌, ℕ, [], IfOk, Some, length, true};
ghost use Rattle.inno_types.specs.declared.lock.Level.TheVariants.{ReadUncommitted};
ghost use Rattle.inno_model.specs.Past.{level, own, IsOpen};
ghost use Rattle.sql_history.specs.Legal.{IsWithin};
ghost use Rattle.sql_history.specs.Readings.{is_plain_select};
ghost use Rattle.shared_lists.specs.Tasks.{Idle};
ghost use Rattle.shared_lists.specs.State.{Stays, task_of};
ghost use Rattle.sql_lists.specs.Going.{Nears};
ghost use Rattle.sql_lists.specs.Steps.{Steps};
ghost use Rattle.read_statement.specs.Going.{to_go, NearsTo};
ghost use Rattle.read_statement.specs.Running.{IsRunning, IsEarly, IsSeen, IsAnswered, AreRead, IsUnrefused, answers_rows};

use crate::answering::{Settled, close, only_answer, settle};
use crate::machine::ReadStatement;
use crate::planning::{Planned, plan_search};
use giving_up::Leaving;
use inno_db::Outcome;
use inno_types::{Boxed, Reply, Rows, Stmt};
use plain_sql::plain_on_rows;
use shared_lists::SharedLists;
use sql_lists::{Advance, SqlLists};
use std::alloc::Global;
use store_api::NoMemory;

/// Answers by the newest rows as they are now. They are read in one step, so they are those of one moment.
/// MySQL 8.0 Reference Manual, "Transaction Isolation Levels".
pub fn step_dirty<L: SharedLists>(
    alloc: Global,
    stmt: Boxed<Stmt>,
    alone: bool,
    session: u32,
    lists: &mut SqlLists<L>,
) -> (ReadStatement, Advance)
    requires joined { session < length lists.old.names }
    requires running { IsRunning lists.old session (ReadStatement.Open stmt alone) }
    requires dirty { level session lists.old.past ≡ Some ReadUncommitted }
    ensures steps { Steps IsRunning session lists.old lists.new result.0 result.1 }
    ensures nears { Nears to_go session lists.old (ReadStatement.Open stmt alone) lists.new result.0 result.1 }
{
    match read_newest(alloc, stmt.get(), session, lists) {
        Ok(read) => answer_newest(alloc, stmt, alone, &read, session, lists),
        Err(_) => {
            drop(stmt);
            (
                ReadStatement::Leaving(Leaving::Failed { alone }),
                Advance::NoMemory,
            )
        }
    }
}

/// The newest rows of a statement's table, by number.
#[derive(Drop)]
struct Newest {
    table: u8,
    rows: Rows,
}

/// The newest rows of the statement's table.
fn read_newest<L: SharedLists>(
    alloc: Global,
    stmt: &Stmt,
    session: u32,
    lists: &mut SqlLists<L>,
) -> Result<Newest, NoMemory>
    requires joined { session < length lists.old.names }
    requires plain { is_plain_select stmt.now ≡ true }
    requires idle { task_of session lists.old ≡ Idle }
    ensures same { Stays session lists.old lists.new }
    ensures read { IfOk result (λ read. AreRead lists.old.past stmt.now read.table read.rows) }
{
    let Planned { table, plan } = plan_search(alloc, stmt, lists)?;
    let rows = lists.read_newest(session, table, plan)?;
    Ok(Newest { table, rows })
}

/// Answers by the rows that were read.
fn answer_newest<L: SharedLists>(
    alloc: Global,
    stmt: Boxed<Stmt>,
    alone: bool,
    read: &Newest,
    session: u32,
    lists: &mut SqlLists<L>,
) -> (ReadStatement, Advance)
    requires joined { session < length lists.old.names }
    requires running { IsRunning lists.old session (ReadStatement.Open stmt alone) }
    requires dirty { level session lists.old.past ≡ Some ReadUncommitted }
    requires read { AreRead lists.old.past stmt read.now.table read.now.rows }
    ensures steps { Steps IsRunning session lists.old lists.new result.0 result.1 }
    ensures nears { NearsTo 4 session lists.new result.0 result.1 }
{
    let settled = settle_newest(alloc, stmt.get(), alone, read, session, lists);
    drop(stmt);
    match settled {
        Ok(settled) => close(alone, settled, session, lists),
        Err(_) => (
            ReadStatement::Leaving(Leaving::Failed { alone }),
            Advance::NoMemory,
        ),
    }
}

/// The reply, or that its rows are too many.
fn settle_newest<L: SharedLists>(
    alloc: Global,
    stmt: &Stmt,
    alone: bool,
    read: &Newest,
    session: u32,
    lists: &SqlLists<L>,
) -> Result<Settled, NoMemory>
    requires early { IsEarly lists.now.past session stmt.now alone }
    requires is_open { IsOpen session lists.now.past }
    requires dirty { level session lists.now.past ≡ Some ReadUncommitted }
    requires read { AreRead lists.now.past stmt.now read.now.table read.now.rows }
    ensures answered { IfOk result (λ settled. IsAnswered lists.now.past session alone settled.kept settled.given) }
    ensures within { IfOk result (λ settled. IsWithin settled.kept lists.now.past) }
{
    let given = newest_reply(alloc, stmt, read, session, lists)?;
    settle(given, stmt, alone, session, lists)
}

/// What the statement answers over the newest rows: rows, or a refusal.
fn newest_reply<L: SharedLists>(
    alloc: Global,
    stmt: &Stmt,
    read: &Newest,
    session: u32,
    lists: &SqlLists<L>,
) -> Result<Reply, NoMemory>
    requires plain { is_plain_select stmt.now ≡ true }
    requires unrefused { IsUnrefused stmt.now lists.now.past }
    requires dirty { level session lists.now.past ≡ Some ReadUncommitted }
    requires read { AreRead lists.now.past stmt.now read.now.table read.now.rows }
    ensures seen { IfOk result (λ reply. IsSeen lists.now.past session stmt.now reply) }
    ensures kind { IfOk result (λ reply. answers_rows reply ≡ true) }
{
    let Outcome { reply, .. } = newest_outcome(alloc, stmt, read, session, lists)?;
    only_answer(reply)
}

fn newest_outcome<L: SharedLists>(
    alloc: Global,
    stmt: &Stmt,
    read: &Newest,
    session: u32,
    lists: &SqlLists<L>,
) -> Result<Outcome, NoMemory>
    requires plain { is_plain_select stmt.now ≡ true }
    requires unrefused { IsUnrefused stmt.now lists.now.past }
    requires dirty { level session lists.now.past ≡ Some ReadUncommitted }
    requires read { AreRead lists.now.past stmt.now read.now.table read.now.rows }
    ensures { IfOk result (λ outcome. IsSeen lists.now.past session stmt.now outcome.reply) }
{
    let _writer = only_writer(session, lists);
    plain_on_rows(alloc, lists.schemas(), read.table, &read.rows, stmt)
}

/// The session that alone may have changes.
fn only_writer<L: SharedLists>(session: u32, lists: &SqlLists<L>) -> u32
    ensures { (other : ℕ) → other ≢ result → own other lists.now.past ≡ [] }
{
    match lists.writer() {
        Some(writer) => writer,
        None => session,
    }
}
