//! The states of the machine, and its step.
//! `statement` alone makes and steps one; the other files of this crate say which state comes next.

ghost use Rattle.std.specs.Prelude.{◌≡◌, ◌<◌, ℕ, length, true, false, None};
ghost use Rattle.shared_lists.specs.Tasks.{Idle, asked};
ghost use Rattle.shared_lists.specs.State.{State, task_of};
ghost use Rattle.inno_db.specs.Refusals.{refusal};
ghost use Rattle.sql_history.specs.Legal.{IsWriting};
ghost use Rattle.sql_history.specs.Statements.{schemas_now};
ghost use Rattle.sql_lists.specs.Steps.{IsTaken, StaysRunning};
ghost use Rattle.giving_up.specs.Machines.{MayStep, StepsAs, MovesOnAcked};
ghost use Rattle.write_statement.specs.Going.{to_go};
ghost use Rattle.write_statement.specs.Running.{IsRunning, AreParts, is_searching, is_at_change, owes_ack, acked, wants_room};

use crate::changing::{lack_room, step_changing};
use crate::making::{step_change, step_making, stop_making};
use crate::opening::{step_fresh, step_locking};
use crate::searching::step_searching;
use giving_up::Leaving;
use inno_db::Change;
use inno_types::{Boxed, Literals, Stmt};
use shared_lists::SharedLists;
use sql_lists::{Advance, SqlLists};
use std::alloc::Global;
use std::mem;

/// A statement that changes rows.
#[derive(Drop)]
pub enum WriteStatement {
    /// It has made no step.
    Fresh {
        stmt: Boxed<Stmt>,
    },
    /// It has a transaction, and is yet to take the right to write. `alone` says that the transaction is its own.
    Locking {
        stmt: Boxed<Stmt>,
        alone: bool,
    },
    /// It searches its table for a part.
    Searching(Part),
    /// It makes the changes of a part, of which the next one stands last.
    Changing {
        part: Part,
        todo: Vec<Change>,
    },
    /// It makes one, which the history doesn't tell yet, and by which it will hold so many rows more.
    Making {
        part: Part,
        todo: Vec<Change>,
        rows: u64,
    },
    /// The history tells that change, and keys are yet to take it over.
    Finishing {
        part: Part,
        todo: Vec<Change>,
    },
    /// It ends: it takes its changes back, or they stand.
    Leaving(Leaving),
}

/// A part of a statement: an INSERT has one for each of its tuples, any other statement is one. The tuples of parts that are
/// yet to come stand in `later`, the next one last. All are of the table of this number. Before the statement its transaction had
/// made so many changes.
#[derive(Drop)]
pub struct Part {
    pub stmt: Boxed<Stmt>,
    pub later: Vec<Literals>,
    pub table: u8,
    pub alone: bool,
    pub before: usize,
}

impl WriteStatement {
    /// A statement that nothing refused at once. Later steps rest on that, and test it no more.
    pub fn new<L: SharedLists>(stmt: Boxed<Stmt>, session: u32, lists: &SqlLists<L>) -> Self
        requires taken { IsTaken session stmt lists.now.past }
        requires writes { IsWriting stmt }
        requires unrefused { refusal (schemas_now session lists.now.past) stmt ≡ None }
        requires idle { task_of session lists.now ≡ Idle }
        ensures { IsRunning lists.now session result }
    {
        // that the session's tables are all that were made follows from what the lists say of their history
        let _ = lists.history();
        WriteStatement::Fresh { stmt }
    }

    /// Whether the statement's commit is yet to be acknowledged. It makes no step before that.
    pub fn owes_ack(&self) -> bool
        ensures { result ≡ owes_ack self.now }
    {
        match self {
            WriteStatement::Leaving(leaving) => leaving.owes_ack(),
            WriteStatement::Fresh { .. }
            | WriteStatement::Locking { .. }
            | WriteStatement::Searching(_)
            | WriteStatement::Changing { .. }
            | WriteStatement::Making { .. }
            | WriteStatement::Finishing { .. } => false,
        }
    }

    /// The statement after the acknowledgement of its commit.
    pub fn acked(self) -> Self
        ensures { result ≡ acked self }
    {
        match self {
            WriteStatement::Leaving(leaving) => WriteStatement::Leaving(leaving.acked()),
            other => other,
        }
    }

    /// Whether the statement is about to tell a change to the history. An engine that logs its changes takes room in its
    /// log first.
    pub fn wants_room(&self) -> bool
        ensures { result ≡ wants_room self.now }
    {
        matches!(
            self,
            WriteStatement::Changing { .. } | WriteStatement::Making { .. }
        )
    }

    /// The statement where there is no room for its next change: it takes back what it has made, and gives up the change that
    /// is under way.
    pub fn without_room<L: SharedLists>(
        self,
        session: u32,
        lists: &mut SqlLists<L>,
    ) -> (WriteStatement, Advance)
        requires joined { session < length lists.old.names }
        requires running { IsRunning lists.old session self }
        requires wants { wants_room self ≡ true }
        ensures step { StepsAs IsRunning to_go session lists.old self lists.new result.0 result.1 }
        ensures lacks { result.1 ≡ Advance.NoMemory }
    {
        match self {
            WriteStatement::Changing { part, todo } => lack_room(part, todo, session, lists),
            WriteStatement::Making { part, todo, rows } => {
                stop_making(part, todo, rows, session, lists)
            }
            _ => unreachable!(),
        }
    }

    /// One step of the session's statement, where it lies: a step of its search or of a change under way moves nothing of it.
    pub fn step<L: SharedLists>(
        &mut self,
        alloc: Global,
        session: u32,
        lists: &mut SqlLists<L>,
    ) -> Advance
        requires { MayStep IsRunning owes_ack session lists.old self.old }
        ensures { StepsAs IsRunning to_go session lists.old self.old lists.new self.new result }
    {
        match self {
            WriteStatement::Searching(_) => step_searching(self, alloc, session, lists),
            WriteStatement::Making { rows, .. } => {
                let rows = *rows;
                step_making(self, rows, session, lists)
            }
            WriteStatement::Finishing { .. } => step_change(self, session, lists),
            WriteStatement::Fresh { .. }
            | WriteStatement::Locking { .. }
            | WriteStatement::Changing { .. }
            | WriteStatement::Leaving(_) => self.go_over(alloc, session, lists),
        }
    }

    /// A step by which it goes over into another state.
    fn go_over<L: SharedLists>(
        &mut self,
        alloc: Global,
        session: u32,
        lists: &mut SqlLists<L>,
    ) -> Advance
        requires may { MayStep IsRunning owes_ack session lists.old self.old }
        requires between { (is_searching self.old ≡ false) × (is_at_change self.old ≡ false) }
        ensures { StepsAs IsRunning to_go session lists.old self.old lists.new self.new result }
    {
        let (next, answer) = self.taken().stepped(alloc, session, lists);
        drop(mem::replace(self, next));
        answer
    }

    /// The state behind a step that goes over into another one.
    fn stepped<L: SharedLists>(
        self,
        alloc: Global,
        session: u32,
        lists: &mut SqlLists<L>,
    ) -> (WriteStatement, Advance)
        requires may { MayStep IsRunning owes_ack session lists.old self }
        requires between { (is_searching self ≡ false) × (is_at_change self ≡ false) }
        ensures { StepsAs IsRunning to_go session lists.old self lists.new result.0 result.1 }
    {
        match self {
            WriteStatement::Fresh { stmt } => step_fresh(stmt, session, lists),
            WriteStatement::Locking { stmt, alone } => step_locking(
                alloc, stmt, alone, session, lists,
            ),
            WriteStatement::Changing { part, todo } => {
                step_changing(alloc, part, todo, session, lists)
            }
            WriteStatement::Leaving(leaving) => {
                let (leaving, answer) = leaving.step(session, lists);
                (WriteStatement::Leaving(leaving), answer)
            }
            WriteStatement::Searching(_)
            | WriteStatement::Making { .. }
            | WriteStatement::Finishing { .. } => unreachable!(),
        }
    }

    /// It is taken out of its place, to be put back as another one.
    fn taken(&mut self) -> Self
        ensures { result ≡ self.old }
    {
        mem::replace(self, WriteStatement::Leaving(Leaving::Ended))
    }

    /// The part that it searches for, which is taken out of it.
    pub fn part(&mut self) -> Part
        requires { is_searching self.old ≡ true }
        ensures { self.old ≡ WriteStatement.Searching result }
    {
        match self.taken() {
            WriteStatement::Searching(part) => part,
            _ => unreachable!(),
        }
    }

    /// The part whose change is under way, and the changes behind that one, which are taken out of it.
    pub fn parts(&mut self) -> (Part, Vec<Change>)
        requires { is_at_change self.old ≡ true }
        ensures { AreParts self.old result.0 result.1 }
    {
        match self.taken() {
            WriteStatement::Making { part, todo, .. } => (part, todo),
            WriteStatement::Finishing { part, todo } => (part, todo),
            _ => unreachable!(),
        }
    }
}

/// A commit that is owed stands in the past, and its acknowledgement brings the statement nearer to its end.
pub fn an_acknowledgement_moves_it_on()
    ensures { MovesOnAcked IsRunning to_go owes_ack acked }
{}

/// A statement that wants no room has no change to tell.
pub fn one_that_wants_no_room_tells_none()
    ensures { (state : State) (s : ℕ) (m : WriteStatement) → wants_room m ≡ false → IsRunning state s m → asked (task_of s state) ≡ None }
{}

/// An entry of another session leaves what the machine knows.
pub fn others_leave_it()
    ensures { StaysRunning IsRunning }
{}
