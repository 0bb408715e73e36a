//! A statement opens a transaction where none is open, takes the right to write, and begins to search its table.
//! The machine calls the steps; `changing` begins the search of each later part here.

ghost use Rattle.std.specs.Prelude.{◌≡◌, ◌≢◌, ◌<◌, ◌≤◌, ◌+◌, ◌*◌, ℕ, IfOk, [], length, Some, None};
ghost use Rattle.inno_db.specs.Refusals.{refusal};
ghost use Rattle.sql_history.specs.Legal.{IsWriting};
ghost use Rattle.inno_db.specs.Outcome.{table_read};
ghost use Rattle.inno_db.specs.declared.limits.TheConstants.{MOST_TABLES};
ghost use Rattle.inno_types.specs.declared.value.Schema.{Schema};
ghost use Rattle.inno_model.specs.Past.{own, IsOpen, IsClosed};
ghost use Rattle.law_stored_rows.specs.Storable.{AreStorable};
ghost use Rattle.shared_lists.specs.Tasks.{Idle};
ghost use Rattle.shared_lists.specs.State.{task_of};
ghost use Rattle.sql_lists.specs.Steps.{Steps};
ghost use Rattle.sql_lists.specs.Going.{Nears, left};
ghost use Rattle.write_statement.specs.Going.{to_go, IsNearer};
ghost use Rattle.sql_plan.specs.Planning.{IsPlanFor};
ghost use Rattle.write_statement.specs.Parts.{of_part};
ghost use Rattle.law_claims.specs.Claims.{Keeps, Tables};
ghost use Rattle.write_statement.specs.Running.{IsChanging, IsRunning};

use crate::answering::{give_up, give_up_at};
use crate::machine::{Part, WriteStatement};
use crate::parting::first_part;
use giving_up::Leaving;
use inno_types::{Boxed, Listed, Schema, Stmt};
use shared_lists::{Reading, SharedLists};
use sql_lists::{Advance, SqlLists};
use sql_plan::{Plan, plan_for};
use sql_values::place_of_table;
use std::alloc::Global;
use store_api::NoMemory;

pub fn step_fresh<L: SharedLists>(
    stmt: Boxed<Stmt>,
    session: u32,
    lists: &mut SqlLists<L>,
) -> (WriteStatement, Advance)
    requires joined { session < length lists.old.names }
    requires running { IsRunning lists.old session (WriteStatement.Fresh stmt) }
    ensures steps { Steps IsRunning session lists.old lists.new result.0 result.1 }
    ensures nears { Nears to_go session lists.old (WriteStatement.Fresh stmt) lists.new result.0 result.1 }
{
    if lists.level(session).is_some() {
        return (
            WriteStatement::Locking { stmt, alone: false },
            Advance::Went,
        );
    }
    open(stmt, session, lists)
}

/// Opens a transaction, with autocommit one for the statement alone.
fn open<L: SharedLists>(
    stmt: Boxed<Stmt>,
    session: u32,
    lists: &mut SqlLists<L>,
) -> (WriteStatement, Advance)
    requires joined { session < length lists.old.names }
    requires running { IsRunning lists.old session (WriteStatement.Fresh stmt) }
    requires closed { IsClosed session lists.old.past }
    requires none { own session lists.old.past ≡ [] }
    ensures steps { Steps IsRunning session lists.old lists.new result.0 result.1 }
    ensures nears { Nears to_go session lists.old (WriteStatement.Fresh stmt) lists.new result.0 result.1 }
{
    let setting = lists.setting(session);
    let alone = setting.autocommit();
    let level = setting.next_level();
    match lists.begin(session, level) {
        Ok(()) => (WriteStatement::Locking { stmt, alone }, Advance::Went),
        Err(_) => {
            drop(stmt);
            (
                WriteStatement::Leaving(Leaving::Failed { alone: false }),
                Advance::NoMemory,
            )
        }
    }
}

pub fn step_locking<L: SharedLists>(
    alloc: Global,
    stmt: Boxed<Stmt>,
    alone: bool,
    session: u32,
    lists: &mut SqlLists<L>,
) -> (WriteStatement, Advance)
    requires joined { session < length lists.old.names }
    requires running { IsRunning lists.old session (WriteStatement.Locking stmt alone) }
    ensures steps { Steps IsRunning session lists.old lists.new result.0 result.1 }
    ensures nears { Nears to_go session lists.old (WriteStatement.Locking stmt alone) lists.new result.0 result.1 }
{
    match lists.lock(session) {
        Some(by) => wait_for(by, stmt, alone, session, lists),
        None => begin_search(alloc, stmt, alone, session, lists),
    }
}

/// Another session may write: the statement waits for its transaction.
fn wait_for<L: SharedLists>(
    by: u32,
    stmt: Boxed<Stmt>,
    alone: bool,
    session: u32,
    lists: &SqlLists<L>,
) -> (WriteStatement, Advance)
    requires joined { (session < length lists.now.names) × (by < length lists.now.names) }
    requires running { IsRunning lists.now session (WriteStatement.Locking stmt alone) }
    requires held { (lists.now.writer ≡ Some by) × (by ≢ session) × IsOpen by lists.now.past }
    ensures steps { Steps IsRunning session lists.now lists.now result.0 result.1 }
    ensures nears { Nears to_go session lists.now (WriteStatement.Locking stmt alone) lists.now result.0 result.1 }
{
    match lists.edge_to(session, by) {
        Ok(blockers) => (
            WriteStatement::Locking { stmt, alone },
            Advance::Waiting { by, blockers },
        ),
        Err(_) => {
            drop(stmt);
            give_up_at(alone, lists.change_count(session))
        }
    }
}

/// The statement may write, and begins with its first part.
fn begin_search<L: SharedLists>(
    alloc: Global,
    stmt: Boxed<Stmt>,
    alone: bool,
    session: u32,
    lists: &mut SqlLists<L>,
) -> (WriteStatement, Advance)
    requires joined { session < length lists.old.names }
    requires running { IsRunning lists.old session (WriteStatement.Locking stmt alone) }
    requires right { Keeps session Tables lists.old.past lists.old.writer }
    ensures steps { Steps IsRunning session lists.old lists.new result.0 result.1 }
    ensures nears { Nears to_go session lists.old (WriteStatement.Locking stmt alone) lists.new result.0 result.1 }
{
    let before = lists.change_count(session);
    let table = table_number(lists.schemas(), stmt.get());
    match first_part(alloc, stmt, table, alone, before) {
        Ok(part) => search_part(alloc, part, session, lists),
        Err(_) => give_up_at(alone, before),
    }
}

/// Begins to search for a part.
pub fn search_part<L: SharedLists>(
    alloc: Global,
    part: Part,
    session: u32,
    lists: &mut SqlLists<L>,
) -> (WriteStatement, Advance)
    requires joined { session < length lists.old.names }
    requires changing { IsChanging lists.old.past lists.old.writer session part (of_part part) [] }
    requires idle { task_of session lists.old ≡ Idle }
    ensures steps { Steps IsRunning session lists.old lists.new result.0 result.1 }
    ensures nears { (phases : ℕ) → 5 + 2 * length part.later.items < phases → (first second third : ℕ) → IsNearer (left phases first second third) session lists.new result.0 result.1 }
{
    let Ok(plan) = plan_in(alloc, lists.schemas(), part.table, part.stmt.get()) else {
        return give_up(part);
    };
    match lists.begin_search(session, part.table, plan, Reading::Newest) {
        Ok(()) => (WriteStatement::Searching(part), Advance::Went),
        Err(_) => give_up(part),
    }
}

/// By which index and range a part searches this table.
fn plan_in(
    alloc: Global,
    schemas: &Listed<Schema>,
    table: u8,
    stmt: &Stmt,
) -> Result<Plan, NoMemory>
    requires storable { AreStorable schemas.now }
    ensures { IfOk result (IsPlanFor schemas.now table stmt.now) }
{
    match schemas.as_slice().get(usize::from(table)) {
        Some(schema) => plan_for(alloc, schema, stmt),
        None => Err(NoMemory),
    }
}

/// The table of a statement that isn't refused, by number.
fn table_number(schemas: &Listed<Schema>, stmt: &Stmt) -> u8
    requires few { length schemas.now ≤ MOST_TABLES }
    requires writes { IsWriting stmt.now }
    requires unrefused { refusal schemas.now stmt.now ≡ None }
    ensures { table_read schemas.now stmt.now ≡ Some result }
{
    match table_of(schemas, stmt) {
        Some(place) => place as u8,
        None => unreachable!(),
    }
}

/// The table on whose rows a statement acts, by its place, where it is there.
fn table_of(schemas: &Listed<Schema>, stmt: &Stmt) -> Option<usize>
    ensures { result ≡ table_read schemas.now stmt.now }
{
    match stmt {
        Stmt::Select { table, .. }
        | Stmt::Insert { table, .. }
        | Stmt::Update { table, .. }
        | Stmt::Delete { table, .. } => place_of_table(schemas, table),
        Stmt::CreateTable { .. }
        | Stmt::Begin { .. }
        | Stmt::Commit
        | Stmt::Rollback
        | Stmt::RollbackTo { .. }
        | Stmt::Savepoint { .. }
        | Stmt::SetAutocommit(_)
        | Stmt::SetLevel { .. } => None,
    }
}
