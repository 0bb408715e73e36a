//! How the item of a statement ends, and before it a transaction of its own.
//! Machines that read or write come here when they are done, and the steps of `Leaving` do.

ghost use Rattle.std.specs.Prelude.{◌≡◌, ◌<◌, ◌+◌, ◌∷◌, false, true, length, IfNone, IfSome};
ghost use Rattle.inno_model.specs.declared.event.Event.TheVariants.{Committed, RolledBack};
ghost use Rattle.inno_model.specs.Past.{of_item, awaits_ack};
ghost use Rattle.sql_grammar.specs.Grammar.{Spells};
ghost use Rattle.sql_history.specs.Counts.{rows_kept, rows_of_reply, most_rows};
ghost use Rattle.sql_history.specs.Legal.{MayCommit, MayRollBack, IsWithin};
ghost use Rattle.shared_lists.specs.Tasks.{Idle};
ghost use Rattle.shared_lists.specs.State.{task_of};
ghost use Rattle.sql_lists.specs.Steps.{Steps};
ghost use Rattle.sql_lists.specs.Going.{Nears};
ghost use Rattle.giving_up.specs.Ends.{MayEndWith, IsClosing, is_rows};
ghost use Rattle.giving_up.specs.Going.{to_leave};
ghost use Rattle.giving_up.specs.Leaving.{IsLeaving};

use crate::leaving::Leaving;
use inno_types::Reply;
use shared_lists::SharedLists;
use sql_lists::{Advance, SqlLists};

/// Ends the item.
pub fn end<L: SharedLists>(
    kept: Reply,
    given: Reply,
    session: u32,
    lists: &mut SqlLists<L>,
) -> (Leaving, Advance)
    requires joined { session < length lists.old.names }
    requires may { MayEndWith session kept given lists.old.past }
    requires acked { awaits_ack (of_item session lists.old.past) ≡ false }
    requires within { IsWithin kept lists.old.past }
    requires idle { task_of session lists.old ≡ Idle }
    ensures steps { Steps IsLeaving session lists.old lists.new result.0 result.1 }
    ensures done { result.1 ≡ Advance.Done given }
{
    lists.end(session, kept);
    (Leaving::Ended, Advance::Done(given))
}

/// Commits the statement's own transaction. Its item may end once that is acknowledged.
pub fn commit<L: SharedLists>(
    kept: Reply,
    given: Reply,
    session: u32,
    lists: &mut SqlLists<L>,
) -> (Leaving, Advance)
    requires joined { session < length lists.old.names }
    requires may { MayCommit Spells session lists.old.past }
    requires closing { IsClosing session kept given (Committed session ∷ lists.old.past) }
    requires idle { task_of session lists.old ≡ Idle }
    ensures steps { Steps IsLeaving session lists.old lists.new result.0 result.1 }
    ensures state { result.0 ≡ Leaving.Unacked kept given }
    ensures answer { result.1 ≡ Advance.Went }
{
    lists.commit(session);
    (Leaving::Unacked { kept, given }, Advance::Went)
}

/// Rolls back the statement's own transaction, of which no change stands.
pub fn roll_back<L: SharedLists>(
    kept: Reply,
    given: Reply,
    session: u32,
    lists: &mut SqlLists<L>,
) -> (Leaving, Advance)
    requires joined { session < length lists.old.names }
    requires may { MayRollBack Spells session lists.old.past }
    requires closing { IsClosing session kept given (RolledBack session ∷ lists.old.past) }
    requires idle { task_of session lists.old ≡ Idle }
    ensures steps { Steps IsLeaving session lists.old lists.new result.0 result.1 }
    ensures state { result.0 ≡ Leaving.Ending kept given }
    ensures answer { result.1 ≡ Advance.Went }
{
    lists.roll_back(session);
    (Leaving::Ending { kept, given }, Advance::Went)
}

/// Gives up: a transaction of its own is rolled back.
pub fn step_failed<L: SharedLists>(
    alone: bool,
    session: u32,
    lists: &mut SqlLists<L>,
) -> (Leaving, Advance)
    requires joined { session < length lists.old.names }
    requires leaving { IsLeaving lists.old session (Leaving.Failed alone) }
    ensures steps { Steps IsLeaving session lists.old lists.new result.0 result.1 }
    ensures nears { Nears to_leave session lists.old (Leaving.Failed alone) lists.new result.0 result.1 }
{
    if alone {
        return roll_back(Reply::NoMemory, Reply::NoMemory, session, lists);
    }
    end(Reply::NoMemory, Reply::NoMemory, session, lists)
}

/// Ends the item, with its reply or, where others have filled the history meanwhile, without.
pub fn step_ending<L: SharedLists>(
    kept: Reply,
    given: Reply,
    session: u32,
    lists: &mut SqlLists<L>,
) -> (Leaving, Advance)
    requires joined { session < length lists.old.names }
    requires leaving { IsLeaving lists.old session (Leaving.Ending kept given) }
    ensures steps { Steps IsLeaving session lists.old lists.new result.0 result.1 }
    ensures nears { Nears to_leave session lists.old (Leaving.Ending kept given) lists.new result.0 result.1 }
{
    match overfull_by(&kept, lists) {
        Some(rows) => end(
            Reply::RunLimit { rows },
            Reply::RunLimit { rows },
            session,
            lists,
        ),
        None => end(kept, given, session, lists),
    }
}

/// How many rows the history would hold with a reply, where these are too many.
pub fn overfull_by<L: SharedLists>(reply: &Reply, lists: &SqlLists<L>) -> Option<u64>
    ensures fits { IfNone result (IsWithin reply.now lists.now.past) }
    ensures many { IfSome result (λ rows. (most_rows < rows) × (rows ≡ rows_kept lists.now.past + rows_of_reply reply.now)) }
    ensures rows { IfSome result (λ rows. is_rows reply.now ≡ true) }
{
    match reply {
        Reply::Rows(rows) => lists.overfull(rows.as_slice().len() as u64),
        Reply::Fail(_)
        | Reply::Done
        | Reply::Count(_)
        | Reply::RunLimit { .. }
        | Reply::NotSignalled { .. }
        | Reply::Stopped
        | Reply::NoMemory => None,
    }
}
