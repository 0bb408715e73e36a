//! The entries that a step of a session has added are taken over into the log of commits.
//! `LoggedSessions` alone calls it, with what a call has just added to its history.

ghost use Rattle.std.specs.Prelude.{◌≡◌, ◌++◌, List, length, reverse};
ghost use Rattle.store_api.specs.Past.{Past};
ghost use Rattle.inno_model.specs.declared.event.Event.{Event as EventValue};
ghost use Rattle.commit_log.specs.View.{IsJoined, IsLogging};
ghost use Rattle.commit_log.specs.DraftsView.{draft_of};
ghost use Rattle.durable_engine.specs.Entering.{MayEnter};

use commit_log::CommitLog;
use inno_model::Event;

/// Takes over the entries of a session, the oldest first.
pub(crate) fn enter_all(log: &mut CommitLog, session: u32, entries: &[Event])
    requires joined { IsJoined session log.old }
    requires may { MayEnter session (draft_of session log.old.drafts).ready entries.now }
    ensures joined { length log.new.drafts ≡ length log.old.drafts }
    ensures kept { (root now : Past) (past : List EventValue) → IsLogging root now past log.old
        → IsLogging root now (reverse entries.now ++ past) log.new }
{
    for entry in entries {
        log.enter(session, entry);
    }
}
