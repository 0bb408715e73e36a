//! The states of a SELECT, and its step by each.
//! `statement` alone makes and steps one; which state comes next is said by the steps in the other files.

ghost use Rattle.std.specs.Prelude.{◌≡◌, ◌<◌, length, true, false, None};
ghost use Rattle.inno_db.specs.Refusals.{refusal};
ghost use Rattle.sql_history.specs.Readings.{is_plain_select};
ghost use Rattle.sql_history.specs.Statements.{is_select, schemas_now};
ghost use Rattle.shared_lists.specs.Tasks.{Idle};
ghost use Rattle.shared_lists.specs.State.{task_of};
ghost use Rattle.sql_lists.specs.Steps.{StaysRunning};
ghost use Rattle.giving_up.specs.Machines.{MayStep, StepsAs, MovesOnAcked};
ghost use Rattle.read_statement.specs.Going.{to_go};
ghost use Rattle.read_statement.specs.Running.{IsRunning, IsTakenWith, is_searching, owes_ack, acked};

use crate::answering::step_found;
use crate::opening::{step_open, step_opening, step_viewed};
use crate::searching::step_searching;
use giving_up::Leaving;
use inno_types::{Boxed, Level, Rows, Stmt};
use shared_lists::SharedLists;
use sql_lists::{Advance, SqlLists};
use std::alloc::Global;
use std::mem;

/// A SELECT, and what its session had set: whether it commits each statement, and the level of the transaction that
/// begins next.
#[derive(Drop)]
pub struct Asked {
    pub stmt: Boxed<Stmt>,
    pub autocommit: bool,
    pub level: Level,
}

/// A SELECT whose search of its table, by number, is under way.
#[derive(Drop)]
pub struct Read {
    pub stmt: Boxed<Stmt>,
    pub table: u8,
    pub alone: bool,
}

/// A SELECT with the rows that its search has found.
#[derive(Drop)]
pub struct Found {
    pub stmt: Boxed<Stmt>,
    pub table: u8,
    pub alone: bool,
    pub rows: Rows,
}

/// A SELECT under way. `alone` says that it is a transaction of its own.
#[derive(Drop)]
pub enum ReadStatement {
    Opening(Asked),
    /// Its transaction is open.
    Open { stmt: Boxed<Stmt>, alone: bool },
    /// It has the view that it reads by.
    Viewed { stmt: Boxed<Stmt>, alone: bool },
    Searching(Read),
    Found(Found),
    /// It ends.
    Leaving(Leaving),
}

impl ReadStatement {
    /// A SELECT that was taken with these settings of its session, and that nothing refused at once. Later steps rest on that.
    pub fn new<L: SharedLists>(
        stmt: Boxed<Stmt>,
        autocommit: bool,
        level: Level,
        session: u32,
        lists: &SqlLists<L>,
    ) -> Self
        requires joined { session < length lists.now.names }
        requires select { is_select stmt ≡ true }
        requires taken { IsTakenWith autocommit level session stmt lists.now.past }
        requires unrefused { refusal (schemas_now session lists.now.past) stmt ≡ None }
        requires idle { task_of session lists.now ≡ Idle }
        ensures { IsRunning lists.now session result }
    {
        let asked = Asked {
            stmt,
            autocommit,
            level,
        };
        // that the session's tables are all that were made follows from what the lists say of their history
        let _ = lists.history();
        let _ = session;
        ReadStatement::Opening(asked)
    }

    /// Whether the statement's commit is yet to be acknowledged. It makes no step before that.
    pub fn owes_ack(&self) -> bool
        ensures { result ≡ owes_ack self.now }
    {
        match self {
            ReadStatement::Leaving(leaving) => leaving.owes_ack(),
            ReadStatement::Opening(_)
            | ReadStatement::Open { .. }
            | ReadStatement::Viewed { .. }
            | ReadStatement::Searching(_)
            | ReadStatement::Found(_) => false,
        }
    }

    /// The statement after the acknowledgement of its commit.
    pub fn acked(self) -> Self
        ensures { result ≡ acked self }
    {
        match self {
            ReadStatement::Leaving(leaving) => ReadStatement::Leaving(leaving.acked()),
            other => other,
        }
    }

    /// One step of the session's SELECT, where it lies: a step of its search moves nothing of it.
    pub fn step<L: SharedLists>(
        &mut self,
        alloc: Global,
        session: u32,
        lists: &mut SqlLists<L>,
    ) -> Advance
        requires { MayStep IsRunning owes_ack session lists.old self.old }
        ensures { StepsAs IsRunning to_go session lists.old self.old lists.new self.new result }
    {
        match self {
            ReadStatement::Searching(_) => step_searching(self, session, lists),
            _ => self.go_over(alloc, session, lists),
        }
    }

    /// A step by which it goes over into another state.
    fn go_over<L: SharedLists>(
        &mut self,
        alloc: Global,
        session: u32,
        lists: &mut SqlLists<L>,
    ) -> Advance
        requires may { MayStep IsRunning owes_ack session lists.old self.old }
        requires between { is_searching self.old ≡ false }
        ensures { StepsAs IsRunning to_go session lists.old self.old lists.new self.new result }
    {
        let (next, answer) = self.taken().stepped(alloc, session, lists);
        drop(mem::replace(self, next));
        answer
    }

    /// The state behind a step that goes over into another one.
    fn stepped<L: SharedLists>(
        self,
        alloc: Global,
        session: u32,
        lists: &mut SqlLists<L>,
    ) -> (Self, Advance)
        requires may { MayStep IsRunning owes_ack session lists.old self }
        requires between { is_searching self ≡ false }
        ensures { StepsAs IsRunning to_go session lists.old self lists.new result.0 result.1 }
    {
        match self {
            ReadStatement::Opening(asked) => step_opening(asked, session, lists),
            ReadStatement::Open { stmt, alone } => step_open(alloc, stmt, alone, session, lists),
            ReadStatement::Viewed { stmt, alone } => step_viewed(
                alloc, stmt, alone, session, lists,
            ),
            ReadStatement::Found(found) => step_found(alloc, found, session, lists),
            ReadStatement::Leaving(leaving) => {
                let (leaving, answer) = leaving.step(session, lists);
                (ReadStatement::Leaving(leaving), answer)
            }
            ReadStatement::Searching(_) => unreachable!(),
        }
    }

    /// It is taken out of its place, to be put back as another one.
    fn taken(&mut self) -> Self
        ensures { result ≡ self.old }
    {
        mem::replace(self, ReadStatement::Leaving(Leaving::Ended))
    }

    /// The search under way, which is taken out of it.
    pub fn read(&mut self) -> Read
        requires { is_searching self.old ≡ true }
        ensures { self.old ≡ ReadStatement.Searching result }
    {
        match self.taken() {
            ReadStatement::Searching(read) => read,
            _ => unreachable!(),
        }
    }
}

/// A commit that is owed stands in the past, and its acknowledgement brings the statement nearer to its end.
pub fn an_acknowledgement_moves_it_on()
    ensures { MovesOnAcked IsRunning to_go owes_ack acked }
{}

/// A step of another session leaves what a SELECT knows.
pub fn others_leave_it()
    ensures { StaysRunning IsRunning }
{}
