//! A CREATE TABLE under way, its beginning and its steps.
//! `statement` makes one and steps it; only here, in `asking` and in `ending` does its state change.

ghost use Rattle.std.specs.Prelude.{◌≡◌, ◌<◌, ℕ, false, length, count_by};
ghost use Rattle.sql_history.specs.Legal.{IsCreation};
ghost use Rattle.shared_lists.specs.Tasks.{Idle};
ghost use Rattle.shared_lists.specs.State.{State, task_of};
ghost use Rattle.sql_lists.specs.Steps.{IsTaken, StaysRunning, changes_rows};
ghost use Rattle.giving_up.specs.Machines.{MayStep, StepsAs, MovesOnAcked};
ghost use Rattle.create_statement.specs.Running.{IsRunning, owes_ack, acked, wants_room, without_room};
ghost use Rattle.create_statement.specs.Going.{to_go};

use crate::asking::{step_asked, step_closed};
use crate::ending::{step_ending, step_failed};
use inno_types::{Boxed, Level, Stmt};
use shared_lists::SharedLists;
use sql_lists::{Advance, SqlLists};
use std::alloc::Global;

/// A CREATE TABLE under way.
#[derive(Drop)]
pub enum CreateStatement {
    /// Nothing is done yet. Its transaction is to be of this level.
    Asked { stmt: Boxed<Stmt>, level: Level },
    /// What was open is committed.
    Unacked { stmt: Boxed<Stmt>, level: Level },
    Closed { stmt: Boxed<Stmt>, level: Level },
    /// Its table is committed, or, where that was there, what was open.
    Committed { stmt: Boxed<Stmt> },
    Ending { stmt: Boxed<Stmt> },
    /// No memory was found, and no table is made.
    Failed,
    /// Its item has ended.
    Ended,
}

impl CreateStatement {
    /// The statement of an item that has done nothing yet.
    pub fn new<L: SharedLists>(stmt: Boxed<Stmt>, session: u32, lists: &SqlLists<L>) -> Self
        requires joined { session < length lists.now.names }
        requires kind { IsCreation stmt }
        requires taken { IsTaken session stmt lists.now.past }
        requires idle { task_of session lists.now ≡ Idle }
        ensures { IsRunning lists.now session result }
    {
        let level = lists.setting(session).next_level();
        CreateStatement::Asked { stmt, level }
    }

    /// Whether the statement's commit is yet to be acknowledged. It makes no step before that.
    pub fn owes_ack(&self) -> bool
        ensures { result ≡ owes_ack self.now }
    {
        matches!(
            self,
            CreateStatement::Unacked { .. } | CreateStatement::Committed { .. }
        )
    }

    /// The statement after the acknowledgement of its commit.
    pub fn acked(self) -> Self
        ensures { result ≡ acked self }
    {
        match self {
            CreateStatement::Unacked { stmt, level } => CreateStatement::Closed { stmt, level },
            CreateStatement::Committed { stmt } => CreateStatement::Ending { stmt },
            other => other,
        }
    }

    /// A commit that is owed stands in the past, and its acknowledgement brings the statement nearer to its end.
    pub fn an_acknowledgement_moves_it_on()
        ensures { MovesOnAcked IsRunning to_go owes_ack acked }
    {}

    /// Whether the statement is about to tell its table to the history. An engine that logs its changes takes room in
    /// its log first.
    pub fn wants_room(&self) -> bool
        ensures { result ≡ wants_room self.now }
    {
        matches!(self, CreateStatement::Closed { .. })
    }

    /// The statement where there is no room for its table: it fails, and none is made.
    pub fn without_room(self) -> Self
        ensures { result ≡ without_room self }
    {
        match self {
            CreateStatement::Closed { stmt, level: _ } => {
                drop(stmt);
                CreateStatement::Failed
            }
            other => other,
        }
    }

    /// A statement for whose table there is no room runs on.
    pub fn a_lack_of_room_turns_it_back()
        ensures { (state : State) (s : ℕ) (m : CreateStatement) → IsRunning state s m → IsRunning state s (without_room m) }
    {}

    /// One step of the session's statement. One that wants no room tells the history no change.
    pub fn step<L: SharedLists>(
        self,
        alloc: Global,
        session: u32,
        lists: &mut SqlLists<L>,
    ) -> (Self, Advance)
        requires { MayStep IsRunning owes_ack session lists.old self }
        ensures step { StepsAs IsRunning to_go session lists.old self lists.new result.0 result.1 }
        ensures quiet { wants_room self ≡ false → count_by changes_rows lists.new.past ≡ count_by changes_rows lists.old.past }
    {
        match self {
            CreateStatement::Asked { stmt, level } => step_asked(stmt, level, session, lists),
            CreateStatement::Closed { stmt, level } => step_closed(
                alloc, stmt, level, session, lists,
            ),
            CreateStatement::Ending { stmt } => step_ending(stmt, session, lists),
            CreateStatement::Failed => step_failed(session, lists),
            CreateStatement::Unacked { .. }
            | CreateStatement::Committed { .. }
            | CreateStatement::Ended => unreachable!(),
        }
    }

    /// An entry of another session leaves what a statement knows.
    pub fn others_leave_it()
        ensures { StaysRunning IsRunning }
    {}
}
