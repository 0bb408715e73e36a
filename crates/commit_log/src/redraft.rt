//! What an entry of a session makes of its draft.
//! `CommitLog::enter` alone calls it, for each entry but commits; no entry goes to the log here.

ghost use Rattle.std.specs.Prelude.{◌≡◌, ◌≢◌, ◌<◌, ◌≤◌, ◌∷◌, ℕ, List, length, true, false};
ghost use Rattle.inno_model.specs.declared.event.Event.{Event as EventValue};
ghost use Rattle.inno_model.specs.Past.{begins_txn, own};
ghost use Rattle.commit_log.specs.DraftsView.{draft_of, promised_to_all};
ghost use Rattle.commit_log.specs.View.{is_commit, IsEntryOf, IsReady};

use crate::Drafts;
use inno_model::Event;

/// Takes over into the session's draft what an entry of it, which is no commit, changes.
pub(crate) fn redraft(drafts: &mut Drafts, session: u32, entry: &Event)
    requires joined { session < length drafts.old }
    requires mine { IsEntryOf session entry.now }
    requires uncommitted { is_commit entry.now ≡ false }
    requires ready { IsReady session entry.now drafts.old }
    ensures mine { (past : List EventValue) → (draft_of session drafts.old).changes ≡ own session past
        → (draft_of session drafts.new).changes ≡ own session (entry.now ∷ past) }
    ensures others { (u : ℕ) → u ≢ session → draft_of u drafts.new ≡ draft_of u drafts.old }
    ensures joined { length drafts.new ≡ length drafts.old }
    ensures promised { promised_to_all drafts.new ≤ promised_to_all drafts.old }
    ensures room_stays { begins_txn entry.now ≡ true → (draft_of session drafts.new).ready ≡ (draft_of session drafts.old).ready }
{
    match entry {
        Event::Changed { change, .. } => drafts.add(session, change),
        Event::Undone { keep, .. } => drafts.cut(session, *keep),
        Event::Begin { .. } => drafts.cut(session, 0),
        Event::RolledBack { .. } => drafts.clear(session),
        Event::Opened { .. }
        | Event::Started { .. }
        | Event::View { .. }
        | Event::Waits { .. }
        | Event::Victim { .. }
        | Event::Ended { .. }
        | Event::Committed { .. }
        | Event::Acked { .. }
        | Event::Signal { .. }
        | Event::Stopped { .. } => {}
    }
}
