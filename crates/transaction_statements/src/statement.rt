//! A statement on transactions under way, its beginning and its steps.
//! The crate `statement` alone makes and drives one.

ghost use Rattle.std.specs.Prelude.{◌≡◌, ◌<◌, length};
ghost use Rattle.inno_types.specs.declared.stmt.Stmt.TheVariants.{SetAutocommit};
ghost use Rattle.shared_lists.specs.Tasks.{Idle};
ghost use Rattle.shared_lists.specs.State.{task_of};
ghost use Rattle.sql_lists.specs.Steps.{IsTaken, StaysRunning};
ghost use Rattle.giving_up.specs.Machines.{MayStep, StepsAs, MovesOnAcked};
ghost use Rattle.transaction_statements.specs.Committing.{asked_by};
ghost use Rattle.transaction_statements.specs.Running.{IsRunning, owes_ack, acked};
ghost use Rattle.transaction_statements.specs.Going.{to_go};

use crate::command::Command;
use crate::commits::{step_begun, step_closed, step_committing, step_unviewed, step_viewing};
use crate::committer::Committer;
use crate::endings::{step_failed, step_missing, step_quiet};
use crate::rollbacks::{new_rollback_to, step_rollback, step_rollback_to};
use crate::savepoints::{new_savepoint, step_opening, step_saving};
use crate::setter::Setter;
use inno_types::{Bytes, Level};
use shared_lists::SharedLists;
use sql_lists::{Advance, SqlLists};
use std::alloc::Global;

/// A statement under way.
#[derive(Drop)]
pub enum TransactionStatement {
    /// Nothing is to be done but what it sets, if anything.
    Quiet { setter: Setter },
    /// A ROLLBACK TO whose savepoint is not there.
    Missing { savepoint: Bytes },
    /// Nothing is done yet.
    Committing { committer: Committer },
    /// What was open is committed.
    Unacked { committer: Committer },
    Closed { committer: Committer },
    /// BEGIN WITH CONSISTENT SNAPSHOT has opened its transaction, and is to take the view.
    Viewing,
    /// No memory was found for that view: its transaction, which has changed nothing, is to be rolled back.
    Unviewed,
    /// BEGIN has its transaction.
    Begun { snapshot: bool },
    Rollback,
    RollbackTo { savepoint: Bytes, made: u64 },
    /// A SAVEPOINT is to open a transaction of this level first.
    Opening { savepoint: Bytes, level: Level },
    /// A SAVEPOINT in a transaction, and whether it opened that one.
    Saving { savepoint: Bytes, opened: bool },
    /// No memory was found.
    Failed,
    /// Its item has ended.
    Ended,
}

impl TransactionStatement {
    /// The statement of an item that has done nothing yet.
    pub fn new<L: SharedLists>(command: Command, session: u32, lists: &SqlLists<L>) -> Self
        requires joined { session < length lists.now.names }
        requires taken { IsTaken session (asked_by command) lists.now.past }
        requires idle { task_of session lists.now ≡ Idle }
        ensures { IsRunning lists.now session result }
    {
        let setting = lists.setting(session);
        match command {
            Command::Begin { snapshot } => {
                let level = setting.next_level();
                TransactionStatement::Committing {
                    committer: Committer::Begin { snapshot, level },
                }
            }
            Command::Commit => TransactionStatement::Committing {
                committer: Committer::Commit,
            },
            Command::Rollback => TransactionStatement::Rollback,
            Command::RollbackTo { savepoint } => new_rollback_to(savepoint, session, lists),
            Command::Savepoint { name } => new_savepoint(name, session, lists),
            Command::SetAutocommit(on) => new_autocommit(on, session, lists),
            Command::SetLevel { scope, level } => TransactionStatement::Quiet {
                setter: Setter::Level { scope, level },
            },
        }
    }

    /// Whether the statement's commit is yet to be acknowledged. It makes no step before that.
    pub fn owes_ack(&self) -> bool
        ensures { result ≡ owes_ack self.now }
    {
        matches!(self, TransactionStatement::Unacked { .. })
    }

    /// The statement after the acknowledgement of its commit.
    pub fn acked(self) -> Self
        ensures { result ≡ acked self }
    {
        match self {
            TransactionStatement::Unacked { committer } => {
                TransactionStatement::Closed { committer }
            }
            other => other,
        }
    }

    /// A commit that is owed stands in the past, and its acknowledgement brings the statement nearer to its end.
    pub fn an_acknowledgement_moves_it_on()
        ensures { MovesOnAcked IsRunning to_go owes_ack acked }
    {}

    /// One step of the session's statement.
    pub fn step<L: SharedLists>(
        self,
        _alloc: Global,
        session: u32,
        lists: &mut SqlLists<L>,
    ) -> (Self, Advance)
        requires { MayStep IsRunning owes_ack session lists.old self }
        ensures { StepsAs IsRunning to_go session lists.old self lists.new result.0 result.1 }
    {
        match self {
            TransactionStatement::Quiet { setter } => step_quiet(setter, session, lists),
            TransactionStatement::Missing { savepoint } => step_missing(savepoint, session, lists),
            TransactionStatement::Committing { committer } => step_committing(
                committer, session, lists,
            ),
            TransactionStatement::Unacked { .. } | TransactionStatement::Ended => unreachable!(),
            TransactionStatement::Closed { committer } => step_closed(committer, session, lists),
            TransactionStatement::Viewing => step_viewing(session, lists),
            TransactionStatement::Unviewed => step_unviewed(session, lists),
            TransactionStatement::Begun { snapshot } => step_begun(snapshot, session, lists),
            TransactionStatement::Rollback => step_rollback(session, lists),
            TransactionStatement::RollbackTo { savepoint, made } => step_rollback_to(
                savepoint, made, session, lists,
            ),
            TransactionStatement::Opening { savepoint, level } => step_opening(
                savepoint, level, session, lists,
            ),
            TransactionStatement::Saving { savepoint, opened } => step_saving(
                savepoint, opened, session, lists,
            ),
            TransactionStatement::Failed => step_failed(session, lists),
        }
    }

    /// An entry of another session leaves what a statement knows.
    pub fn others_leave_it()
        ensures { StaysRunning IsRunning }
    {}
}

/// SET autocommit commits an open transaction where it turns autocommit on.
fn new_autocommit<L: SharedLists>(
    on: bool,
    session: u32,
    lists: &SqlLists<L>,
) -> TransactionStatement
    requires joined { session < length lists.now.names }
    requires taken { IsTaken session (SetAutocommit on) lists.now.past }
    requires idle { task_of session lists.now ≡ Idle }
    ensures { IsRunning lists.now session result }
{
    if on && !lists.setting(session).autocommit() {
        return TransactionStatement::Committing {
            committer: Committer::TurnOn,
        };
    }
    TransactionStatement::Quiet {
        setter: Setter::Autocommit(on),
    }
}
