//! The states of a statement that ends, and its step.
//! `read_statement` and `write_statement` make one and step it; nothing leads back from it to their other states.

ghost use Rattle.std.specs.Prelude.{◌≡◌, ℕ, None};
ghost use Rattle.shared_lists.specs.Tasks.{asked};
ghost use Rattle.shared_lists.specs.State.{State, task_of};
ghost use Rattle.sql_lists.specs.Steps.{StaysRunning};
ghost use Rattle.giving_up.specs.Going.{to_leave};
ghost use Rattle.giving_up.specs.Leaving.{IsLeaving, owes_ack, acked, given_up, reply_for};
ghost use Rattle.giving_up.specs.Machines.{MayStep, StepsAs, MovesOnAcked};

use crate::backing::step_backing;
use crate::ending::{step_ending, step_failed};
use inno_types::{Reply, SqlError};
use shared_lists::{Hindrance, SharedLists};
use sql_lists::{Advance, SqlLists};

/// A statement that ends. Of a reply the history is to keep one copy, and the caller is given the other.
#[derive(Drop)]
pub enum Leaving {
    /// It takes its changes back.
    BackingOut(Work),
    /// No memory was found, and nothing is changed. A transaction of its own is to be rolled back.
    Failed { alone: bool },
    /// Its own transaction is committed.
    Unacked { kept: Reply, given: Reply },
    /// Its own transaction has ended or it leaves none, and nothing awaits an acknowledgement.
    Ending { kept: Reply, given: Reply },
    /// Its item has ended.
    Ended,
}

/// A statement that was refused or given up. `alone` says that the transaction is its own, which had made so many changes before.
#[derive(Drop)]
pub struct Work {
    pub alone: bool,
    pub before: usize,
    pub kept: Reply,
    pub given: Reply,
}

impl Work {
    /// A statement that is given up for want of memory.
    pub fn given_up(alone: bool, before: usize) -> Self
        ensures { result ≡ given_up alone before }
    {
        Work {
            alone,
            before,
            kept: Reply::NoMemory,
            given: Reply::NoMemory,
        }
    }
}

/// The reply to a statement one of whose changes was hindered.
pub fn reply_for(why: Hindrance) -> Reply
    ensures { result ≡ reply_for why }
{
    match why {
        Hindrance::NoMemory => Reply::NoMemory,
        Hindrance::Full { need, free } => Reply::Fail(SqlError::Full { need, free }),
        Hindrance::TooDeep => Reply::Fail(SqlError::TooDeep),
    }
}

impl Leaving {
    /// Whether the statement's commit is yet to be acknowledged. It makes no step before that.
    pub fn owes_ack(&self) -> bool
        ensures { result ≡ owes_ack self.now }
    {
        matches!(self, Leaving::Unacked { .. })
    }

    /// The statement after the acknowledgement of its commit.
    pub fn acked(self) -> Self
        ensures { result ≡ acked self }
    {
        match self {
            Leaving::Unacked { kept, given } => Leaving::Ending { kept, given },
            other => other,
        }
    }

    /// One step towards the end of the session's statement.
    pub fn step<L: SharedLists>(self, session: u32, lists: &mut SqlLists<L>) -> (Leaving, Advance)
        requires { MayStep IsLeaving owes_ack session lists.old self }
        ensures { StepsAs IsLeaving to_leave session lists.old self lists.new result.0 result.1 }
    {
        match self {
            Leaving::BackingOut(work) => step_backing(work, session, lists),
            Leaving::Failed { alone } => step_failed(alone, session, lists),
            Leaving::Unacked { .. } | Leaving::Ended => unreachable!(),
            Leaving::Ending { kept, given } => step_ending(kept, given, session, lists),
        }
    }
}

/// A commit that is owed stands in the past, and its acknowledgement brings the statement nearer to its end.
pub fn an_acknowledgement_moves_it_on()
    ensures { MovesOnAcked IsLeaving to_leave owes_ack acked }
{}

/// It has no change to tell.
pub fn one_that_leaves_tells_no_change()
    ensures { (state : State) (s : ℕ) (m : Leaving) → IsLeaving state s m → asked (task_of s state) ≡ None }
{}

/// An entry of another session leaves what is known of it.
pub fn others_leave_it()
    ensures { StaysRunning IsLeaving }
{}
