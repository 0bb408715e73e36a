//! A statement takes its changes back, one after another, and its own transaction with them.
//! `Leaving::step` alone comes here; each step takes back one change at most.

ghost use Rattle.std.specs.Prelude.{◌≡◌, ◌<◌, length};
ghost use Rattle.inno_model.specs.Past.{own};
ghost use Rattle.sql_history.specs.Items.{own_before};
ghost use Rattle.shared_lists.specs.Tasks.{Idle};
ghost use Rattle.shared_lists.specs.State.{task_of};
ghost use Rattle.sql_lists.specs.Steps.{Steps};
ghost use Rattle.sql_lists.specs.Going.{Nears};
ghost use Rattle.giving_up.specs.Going.{to_leave};
ghost use Rattle.giving_up.specs.Leaving.{IsLeaving};

use crate::ending::{end, roll_back};
use crate::leaving::{Leaving, Work};
use shared_lists::SharedLists;
use sql_lists::{Advance, SqlLists};
use store_api::Stepped;

pub fn step_backing<L: SharedLists>(
    work: Work,
    session: u32,
    lists: &mut SqlLists<L>,
) -> (Leaving, Advance)
    requires joined { session < length lists.old.names }
    requires leaving { IsLeaving lists.old session (Leaving.BackingOut work) }
    ensures steps { Steps IsLeaving session lists.old lists.new result.0 result.1 }
    ensures nears { Nears to_leave session lists.old (Leaving.BackingOut work) lists.new result.0 result.1 }
{
    if lists.change_count(session) > work.before {
        return take_back(work, session, lists);
    }
    leave(work, session, lists)
}

/// Makes a step by which the newest of its changes is taken back.
fn take_back<L: SharedLists>(
    work: Work,
    session: u32,
    lists: &mut SqlLists<L>,
) -> (Leaving, Advance)
    requires joined { session < length lists.old.names }
    requires leaving { IsLeaving lists.old session (Leaving.BackingOut work) }
    requires more { work.before < length (own session lists.old.past) }
    ensures steps { Steps IsLeaving session lists.old lists.new result.0 result.1 }
    ensures nears { Nears to_leave session lists.old (Leaving.BackingOut work) lists.new result.0 result.1 }
{
    match lists.undo(session) {
        Stepped::Went | Stepped::Done(()) => (Leaving::BackingOut(work), Advance::Went),
        Stepped::Hindered(never) => match never {},
    }
}

/// None of its changes stands.
fn leave<L: SharedLists>(work: Work, session: u32, lists: &mut SqlLists<L>) -> (Leaving, Advance)
    requires joined { session < length lists.old.names }
    requires leaving { IsLeaving lists.old session (Leaving.BackingOut work) }
    requires undone { own session lists.old.past ≡ own_before session lists.old.past }
    requires idle { task_of session lists.old ≡ Idle }
    ensures steps { Steps IsLeaving session lists.old lists.new result.0 result.1 }
    ensures nears { Nears to_leave session lists.old (Leaving.BackingOut work) lists.new result.0 result.1 }
{
    let Work {
        alone,
        before: _,
        kept,
        given,
    } = work;
    if alone {
        return roll_back(kept, given, session, lists);
    }
    end(kept, given, session, lists)
}
