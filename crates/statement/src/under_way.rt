//! A statement under way, whichever it is. Before its first step it is looked at whether something refuses it at once;
//! then the machine of its kind makes the steps.

ghost use Rattle.std.specs.Prelude.{◌≡◌, ◌≢◌, ◌<◌, None, true, false, IfOk, length, count_by};
ghost use Rattle.inno_db.specs.Refusals.{refused_if};
ghost use Rattle.inno_model.specs.Past.{level_or, IsOpen};
ghost use Rattle.sql_history.specs.Settings.{next_level};
ghost use Rattle.sql_history.specs.Statements.{session_refusal, is_serializable};
ghost use Rattle.sql_lists.specs.Steps.{Steps, changes_rows};
ghost use Rattle.sql_lists.specs.Going.{Nears};
ghost use Rattle.giving_up.specs.Machines.{MayStep, StepsAs, MovesOnAcked};
ghost use Rattle.statement.specs.Running.{IsRunning, IsOfKind, LooksAs, IsBegun, is_done, goes_over, owes_ack, acked, wants_room};
ghost use Rattle.statement.specs.Going.{statement_to_go};

use create_statement::CreateStatement;
use inno_types::{Boxed, Level, LevelScope, Reply, SqlError, Stmt};
use read_statement::ReadStatement;
use shared_lists::SharedLists;
use sql_history::SessionSettings;
use sql_lists::{Advance, SqlLists};
use sql_refusals::refuse;
use std::alloc::{AllocError, Global};
use std::mem;
use transaction_statements::{Command, TransactionStatement};
use write_statement::WriteStatement;

/// A statement under way.
#[derive(Drop)]
pub enum Statement {
    /// It has made no step yet.
    Asked(Boxed<Stmt>),
    Transaction(TransactionStatement),
    Create(CreateStatement),
    Read(ReadStatement),
    Write(WriteStatement),
    /// No memory was found before it began.
    Failed,
    /// Its item has ended.
    Ended,
}

impl Statement {
    /// Whether the statement's commit is yet to be acknowledged. It makes no step before that.
    pub fn owes_ack(&self) -> bool
        ensures { result ≡ owes_ack self.now }
    {
        match self {
            Statement::Transaction(statement) => statement.owes_ack(),
            Statement::Create(statement) => statement.owes_ack(),
            Statement::Read(statement) => statement.owes_ack(),
            Statement::Write(statement) => statement.owes_ack(),
            Statement::Asked(_) | Statement::Failed | Statement::Ended => false,
        }
    }

    /// The statement after the acknowledgement of its commit.
    pub fn acked(self) -> Self
        ensures { result ≡ acked self }
    {
        match self {
            Statement::Transaction(statement) => Statement::Transaction(statement.acked()),
            Statement::Create(statement) => Statement::Create(statement.acked()),
            Statement::Read(statement) => Statement::Read(statement.acked()),
            Statement::Write(statement) => Statement::Write(statement.acked()),
            other => other,
        }
    }

    /// A commit that is owed stands in the past, and its acknowledgement brings the statement nearer to its end.
    pub fn an_acknowledgement_moves_it_on()
        ensures { MovesOnAcked IsRunning statement_to_go owes_ack acked }
    {}

    /// Whether the statement is about to tell a change to the history. An engine that logs its changes takes room in its
    /// log first.
    pub fn wants_room(&self) -> bool
        ensures { result ≡ wants_room self.now }
    {
        match self {
            Statement::Create(statement) => statement.wants_room(),
            Statement::Write(statement) => statement.wants_room(),
            Statement::Asked(_)
            | Statement::Transaction(_)
            | Statement::Read(_)
            | Statement::Failed
            | Statement::Ended => false,
        }
    }

    /// The statement where there is no room for its change: it gives up, and the change that is under way too.
    pub fn without_room<L: SharedLists>(
        self,
        session: u32,
        lists: &mut SqlLists<L>,
    ) -> (Statement, Advance)
        requires joined { session < length lists.old.names }
        requires running { IsRunning lists.old session self }
        requires wants { wants_room self ≡ true }
        ensures step { StepsAs IsRunning statement_to_go session lists.old self lists.new result.0 result.1 }
        ensures lacks { result.1 ≡ Advance.NoMemory }
    {
        match self {
            Statement::Create(statement) => (
                Statement::Create(statement.without_room()),
                Advance::NoMemory,
            ),
            Statement::Write(statement) => {
                let (statement, advance) = statement.without_room(session, lists);
                (Statement::Write(statement), advance)
            }
            _ => unreachable!(),
        }
    }

    /// One step of the session's statement, where it lies. One that wants no room tells the history no change.
    pub fn step<L: SharedLists>(
        &mut self,
        alloc: Global,
        session: u32,
        lists: &mut SqlLists<L>,
    ) -> Advance
        requires { MayStep IsRunning owes_ack session lists.old self.old }
        ensures step { StepsAs IsRunning statement_to_go session lists.old self.old lists.new self.new result }
        ensures quiet { wants_room self.old ≡ false → count_by changes_rows lists.new.past ≡ count_by changes_rows lists.old.past }
    {
        match self {
            Statement::Read(statement) => statement.step(alloc, session, lists),
            Statement::Write(statement) => statement.step(alloc, session, lists),
            Statement::Asked(_)
            | Statement::Transaction(_)
            | Statement::Create(_)
            | Statement::Failed
            | Statement::Ended => self.go_over(alloc, session, lists),
        }
    }

    /// A step that makes another one of it.
    fn go_over<L: SharedLists>(
        &mut self,
        alloc: Global,
        session: u32,
        lists: &mut SqlLists<L>,
    ) -> Advance
        requires may { MayStep IsRunning owes_ack session lists.old self.old }
        requires between { goes_over self.old ≡ true }
        ensures step { StepsAs IsRunning statement_to_go session lists.old self.old lists.new self.new result }
        ensures quiet { wants_room self.old ≡ false → count_by changes_rows lists.new.past ≡ count_by changes_rows lists.old.past }
    {
        let statement = mem::replace(self, Statement::Ended);
        let (next, answer) = statement.stepped(alloc, session, lists);
        drop(mem::replace(self, next));
        answer
    }

    /// The statement behind a step that makes another one of it.
    fn stepped<L: SharedLists>(
        self,
        alloc: Global,
        session: u32,
        lists: &mut SqlLists<L>,
    ) -> (Statement, Advance)
        requires may { MayStep IsRunning owes_ack session lists.old self }
        requires between { goes_over self ≡ true }
        ensures step { StepsAs IsRunning statement_to_go session lists.old self lists.new result.0 result.1 }
        ensures quiet { wants_room self ≡ false → count_by changes_rows lists.new.past ≡ count_by changes_rows lists.old.past }
    {
        match self {
            Statement::Asked(stmt) => first_step(alloc, stmt, session, lists),
            Statement::Transaction(statement) => {
                let (statement, advance) = statement.step(alloc, session, lists);
                (Statement::Transaction(statement), advance)
            }
            Statement::Create(statement) => {
                let (statement, advance) = statement.step(alloc, session, lists);
                (Statement::Create(statement), advance)
            }
            Statement::Failed => give_up(session, lists),
            Statement::Read(_) | Statement::Write(_) | Statement::Ended => unreachable!(),
        }
    }
}

/// No memory was found: nothing was begun.
fn give_up<L: SharedLists>(session: u32, lists: &mut SqlLists<L>) -> (Statement, Advance)
    requires joined { session < length lists.old.names }
    requires running { IsRunning lists.old session Statement.Failed }
    ensures steps { Steps IsRunning session lists.old lists.new result.0 result.1 }
    ensures over { is_done result.1 ≡ true }
    ensures quiet { count_by changes_rows lists.new.past ≡ count_by changes_rows lists.old.past }
{
    lists.end(session, Reply::NoMemory);
    (Statement::Ended, Advance::Done(Reply::NoMemory))
}

/// Looks whether something refuses the statement at once, and else begins it.
fn first_step<L: SharedLists>(
    alloc: Global,
    stmt: Boxed<Stmt>,
    session: u32,
    lists: &mut SqlLists<L>,
) -> (Statement, Advance)
    requires joined { session < length lists.old.names }
    requires running { IsRunning lists.old session (Statement.Asked stmt) }
    ensures steps { Steps IsRunning session lists.old lists.new result.0 result.1 }
    ensures nears { Nears statement_to_go session lists.old (Statement.Asked stmt) lists.new result.0 result.1 }
    ensures quiet { count_by changes_rows lists.new.past ≡ count_by changes_rows lists.old.past }
{
    match examine(alloc, stmt.get(), session, lists) {
        Ok(Look::Refused(error)) => refuse_at_once(error, stmt, session, lists),
        Ok(Look::Ready(ready)) => (begin(stmt, ready, session, lists), Advance::Went),
        Err(_) => {
            drop(stmt);
            (Statement::Failed, Advance::NoMemory)
        }
    }
}

/// What is found before a statement begins.
#[derive(Drop)]
pub enum Look {
    Refused(SqlError),
    Ready(Ready),
}

/// Nothing refuses a statement at once: of which kind it is, and what its session has set.
#[derive(Drop)]
pub struct Ready {
    pub kind: Kind,
    pub autocommit: bool,
    pub level: Level,
}

/// The kinds of statements: the machines that run them. The tree of one on transactions is small, and is read at once.
#[derive(Drop)]
pub enum Kind {
    Create,
    Read,
    Write,
    Transaction(Command),
}

/// What refuses a statement before it sees a row: what its session has open and has kept, and then its text and the
/// tables.
fn examine<L: SharedLists>(
    alloc: Global,
    stmt: &Stmt,
    session: u32,
    lists: &SqlLists<L>,
) -> Result<Look, AllocError>
    requires joined { session < length lists.now.names }
    ensures { IfOk result (LooksAs session stmt.now lists.now.past) }
{
    let setting = lists.setting(session);
    let level = lists.level(session);
    if let Some(error) = session_refusal(session, level, setting, stmt) {
        return Ok(Look::Refused(error));
    }
    if let Some(error) = refuse(alloc, lists.schemas(), stmt)? {
        return Ok(Look::Refused(error));
    }
    Ok(Look::Ready(Ready {
        kind: kind_of(stmt)?,
        autocommit: setting.autocommit(),
        level: setting.next_level(),
    }))
}

/// 1568 or 1305 by what the session has open and has kept. CREATE TABLE is for the setup part alone, and a SELECT that
/// locks rows, or that SERIALIZABLE might make lock, is for engines that lock rows one by one.
fn session_refusal(
    session: u32,
    level: Option<Level>,
    setting: &SessionSettings,
    stmt: &Stmt,
) -> Option<SqlError>
    ensures { result ≡ session_refusal session level setting.now stmt.now }
{
    match stmt {
        Stmt::SetLevel {
            scope: LevelScope::NextTransaction,
            ..
        } => refused_if(level.is_some(), SqlError::InTransaction),
        Stmt::RollbackTo { savepoint } => refused_if(
            setting.made_at(savepoint).is_none(),
            SqlError::NoSavepoint,
        ),
        Stmt::CreateTable { .. } => refused_if(session != 0, SqlError::Syntax { at: 0 }),
        Stmt::Select { lock, .. } => refused_if(
            lock.is_some() || is_serializable(level_of(level, setting)),
            SqlError::Syntax { at: 0 },
        ),
        Stmt::SetLevel {
            scope: LevelScope::Session,
            ..
        }
        | Stmt::Begin { .. }
        | Stmt::Commit
        | Stmt::Rollback
        | Stmt::Savepoint { .. }
        | Stmt::SetAutocommit(_)
        | Stmt::Insert { .. }
        | Stmt::Update { .. }
        | Stmt::Delete { .. } => None,
    }
}

fn refused_if(refused: bool, error: SqlError) -> Option<SqlError>
    ensures { result ≡ refused_if refused error None }
{
    if refused { Some(error) } else { None }
}

/// The level of the transaction that is open, or of the next one.
fn level_of(level: Option<Level>, setting: &SessionSettings) -> Level
    ensures { result ≡ level_or level (next_level setting.now) }
{
    match level {
        Some(level) => level,
        None => setting.next_level(),
    }
}

fn is_serializable(level: Level) -> bool
    ensures { result ≡ is_serializable level }
{
    matches!(level, Level::Serializable)
}

fn refuse_at_once<L: SharedLists>(
    error: SqlError,
    stmt: Boxed<Stmt>,
    session: u32,
    lists: &mut SqlLists<L>,
) -> (Statement, Advance)
    requires joined { session < length lists.old.names }
    requires running { IsRunning lists.old session (Statement.Asked stmt) }
    requires refused { LooksAs session stmt lists.old.past (Look.Refused error) }
    ensures steps { Steps IsRunning session lists.old lists.new result.0 result.1 }
    ensures nears { Nears statement_to_go session lists.old (Statement.Asked stmt) lists.new result.0 result.1 }
    ensures quiet { count_by changes_rows lists.new.past ≡ count_by changes_rows lists.old.past }
{
    drop(stmt);
    match error.copied() {
        Ok(copy) => {
            lists.end(session, Reply::Fail(error));
            (Statement::Ended, Advance::Done(Reply::Fail(copy)))
        }
        Err(_) => (Statement::Failed, Advance::NoMemory),
    }
}

fn kind_of(stmt: &Stmt) -> Result<Kind, AllocError>
    ensures { IfOk result (λ kind. IsOfKind kind stmt.now) }
{
    let command = match stmt {
        Stmt::CreateTable { .. } => return Ok(Kind::Create),
        Stmt::Select { .. } => return Ok(Kind::Read),
        Stmt::Insert { .. } | Stmt::Update { .. } | Stmt::Delete { .. } => return Ok(Kind::Write),
        Stmt::Begin { snapshot } => Command::Begin {
            snapshot: *snapshot,
        },
        Stmt::Commit => Command::Commit,
        Stmt::Rollback => Command::Rollback,
        Stmt::RollbackTo { savepoint } => Command::RollbackTo {
            savepoint: savepoint.copied()?,
        },
        Stmt::Savepoint { name } => Command::Savepoint {
            name: name.copied()?,
        },
        Stmt::SetAutocommit(on) => Command::SetAutocommit(*on),
        Stmt::SetLevel { scope, level } => Command::SetLevel {
            scope: *scope,
            level: *level,
        },
    };
    Ok(Kind::Transaction(command))
}

/// Nothing refuses the statement at once: it begins.
fn begin<L: SharedLists>(
    stmt: Boxed<Stmt>,
    ready: Ready,
    session: u32,
    lists: &SqlLists<L>,
) -> Statement
    requires joined { session < length lists.now.names }
    requires running { IsRunning lists.now session (Statement.Asked stmt) }
    requires ready { LooksAs session stmt lists.now.past (Look.Ready ready) }
    ensures running { IsRunning lists.now session result }
    ensures begun { IsBegun result }
{
    let Ready {
        kind,
        autocommit,
        level,
    } = ready;
    match kind {
        Kind::Create => Statement::Create(CreateStatement::new(stmt, session, lists)),
        Kind::Read => Statement::Read(ReadStatement::new(stmt, autocommit, level, session, lists)),
        Kind::Write => Statement::Write(WriteStatement::new(stmt, session, lists)),
        Kind::Transaction(command) => {
            drop(stmt);
            Statement::Transaction(TransactionStatement::new(command, session, lists))
        }
    }
}
