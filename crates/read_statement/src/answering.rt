//! How a SELECT answers by the rows that it has found, in one step.
//! `machine` comes here when the search is over; `dirty` settles and closes its answer by the same functions.

ghost use Rattle.std.specs.Prelude.{◌≡◌, ◌<◌, length, IfOk, true};
ghost use Rattle.inno_model.specs.Past.{IsOpen};
ghost use Rattle.sql_history.specs.Legal.{IsWithin};
ghost use Rattle.shared_lists.specs.Tasks.{Idle};
ghost use Rattle.shared_lists.specs.State.{task_of};
ghost use Rattle.sql_lists.specs.Going.{Nears};
ghost use Rattle.sql_lists.specs.Steps.{Steps};
ghost use Rattle.giving_up.specs.Ends.{is_rows};
ghost use Rattle.read_statement.specs.Going.{to_go, NearsTo};
ghost use Rattle.read_statement.specs.Running.{IsRunning, IsEarly, HasFound, IsSeen, IsAnswered, answers_rows};

use crate::machine::{Found, ReadStatement};
use giving_up::{Leaving, commit, end, overfull_by, roll_back};
use inno_db::Outcome;
use inno_types::{Reply, Stmt};
use plain_sql::plain_on_rows;
use shared_lists::SharedLists;
use sql_lists::{Advance, SqlLists};
use std::alloc::Global;
use store_api::NoMemory;

/// Answers by the rows that were found.
pub fn step_found<L: SharedLists>(
    alloc: Global,
    found: Found,
    session: u32,
    lists: &mut SqlLists<L>,
) -> (ReadStatement, Advance)
    requires joined { session < length lists.old.names }
    requires running { IsRunning lists.old session (ReadStatement.Found found) }
    ensures steps { Steps IsRunning session lists.old lists.new result.0 result.1 }
    ensures nears { Nears to_go session lists.old (ReadStatement.Found found) lists.new result.0 result.1 }
{
    let alone = found.alone;
    let settled = settle_found(alloc, &found, session, lists);
    drop(found);
    match settled {
        Ok(settled) => close(alone, settled, session, lists),
        Err(_) => (
            ReadStatement::Leaving(Leaving::Failed { alone }),
            Advance::NoMemory,
        ),
    }
}

/// The reply by the rows that were found, or that they are too many.
fn settle_found<L: SharedLists>(
    alloc: Global,
    found: &Found,
    session: u32,
    lists: &SqlLists<L>,
) -> Result<Settled, NoMemory>
    requires found { HasFound lists.now.past session found.now }
    ensures answered { IfOk result (λ settled. IsAnswered lists.now.past session found.now.alone settled.kept settled.given) }
    ensures within { IfOk result (λ settled. IsWithin settled.kept lists.now.past) }
{
    let given = reply_by(alloc, found, session, lists)?;
    settle(given, found.stmt.get(), found.alone, session, lists)
}

/// What the statement answers by the rows that were found: rows, or a refusal.
fn reply_by<L: SharedLists>(
    alloc: Global,
    found: &Found,
    session: u32,
    lists: &SqlLists<L>,
) -> Result<Reply, NoMemory>
    requires found { HasFound lists.now.past session found.now }
    ensures seen { IfOk result (λ reply. IsSeen lists.now.past session found.now.stmt reply) }
    ensures kind { IfOk result (λ reply. answers_rows reply ≡ true) }
{
    let Outcome { reply, .. } = outcome_by(alloc, found, session, lists)?;
    only_answer(reply)
}

/// The statement's outcome by the rows that were found.
fn outcome_by<L: SharedLists>(
    alloc: Global,
    found: &Found,
    session: u32,
    lists: &SqlLists<L>,
) -> Result<Outcome, NoMemory>
    requires found { HasFound lists.now.past session found.now }
    ensures { IfOk result (λ outcome. IsSeen lists.now.past session found.now.stmt outcome.reply) }
{
    let _ = session;
    plain_on_rows(
        alloc,
        lists.schemas(),
        found.table,
        &found.rows,
        found.stmt.get(),
    )
}

/// A SELECT answers rows or a refusal, and nothing else.
pub fn only_answer(reply: Reply) -> Result<Reply, NoMemory>
    ensures same { IfOk result (λ answer. answer ≡ reply) }
    ensures kind { IfOk result (λ answer. answers_rows answer ≡ true) }
{
    match reply {
        Reply::Rows(rows) => Ok(Reply::Rows(rows)),
        Reply::Fail(error) => Ok(Reply::Fail(error)),
        Reply::Done
        | Reply::Count(_)
        | Reply::RunLimit { .. }
        | Reply::NotSignalled { .. }
        | Reply::Stopped
        | Reply::NoMemory => Err(NoMemory),
    }
}

/// A reply, one copy for the history and one to be given.
#[derive(Drop)]
pub struct Settled {
    pub kept: Reply,
    pub given: Reply,
}

/// A reply to be kept, or that its rows are too many.
pub fn settle<L: SharedLists>(
    given: Reply,
    stmt: &Stmt,
    alone: bool,
    session: u32,
    lists: &SqlLists<L>,
) -> Result<Settled, NoMemory>
    requires early { IsEarly lists.now.past session stmt.now alone }
    requires is_open { IsOpen session lists.now.past }
    requires seen { IsSeen lists.now.past session stmt.now given }
    requires kind { answers_rows given ≡ true }
    ensures answered { IfOk result (λ settled. IsAnswered lists.now.past session alone settled.kept settled.given) }
    ensures within { IfOk result (λ settled. IsWithin settled.kept lists.now.past) }
{
    let _ = stmt;
    let _ = alone;
    let _ = session;
    match overfull_by(&given, lists) {
        Some(rows) => Ok(Settled {
            kept: Reply::RunLimit { rows },
            given: Reply::RunLimit { rows },
        }),
        None => Ok(Settled {
            kept: given.copied()?,
            given,
        }),
    }
}

/// A settled reply ends the item, or first the statement's own transaction: rows by its commit.
pub fn close<L: SharedLists>(
    alone: bool,
    settled: Settled,
    session: u32,
    lists: &mut SqlLists<L>,
) -> (ReadStatement, Advance)
    requires joined { session < length lists.old.names }
    requires answered { IsAnswered lists.old.past session alone settled.kept settled.given }
    requires within { IsWithin settled.kept lists.old.past }
    requires idle { task_of session lists.old ≡ Idle }
    ensures steps { Steps IsRunning session lists.old lists.new result.0 result.1 }
    ensures nears { NearsTo 4 session lists.new result.0 result.1 }
{
    let Settled { kept, given } = settled;
    if !alone {
        let (leaving, answer) = end(kept, given, session, lists);
        return (ReadStatement::Leaving(leaving), answer);
    }
    if is_rows(&kept) {
        let (leaving, answer) = commit(kept, given, session, lists);
        return (ReadStatement::Leaving(leaving), answer);
    }
    let (leaving, answer) = roll_back(kept, given, session, lists);
    (ReadStatement::Leaving(leaving), answer)
}

fn is_rows(reply: &Reply) -> bool
    ensures { result ≡ is_rows reply.now }
{
    matches!(reply, Reply::Rows(_))
}
