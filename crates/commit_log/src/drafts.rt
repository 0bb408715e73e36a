//! The drafts of all sessions, by their numbers, with what is promised to all. An engine calls this beside each entry that
//! it adds to its history.

ghost use Rattle.std.specs.Prelude.{◌≡◌, ◌+◌, ◌<◌, ◌≤◌, [], ◌∷◌, ◌++◌, true, false, length, OnOk, OnErr, slice_set};
ghost use Rattle.law_crashes.specs.Records.{records_of};
ghost use Rattle.law_crashes.specs.Commits.{is_none};
ghost use Rattle.commit_log.specs.Room.{HasRecord};
ghost use Rattle.commit_log.specs.DraftsView.{DraftView, no_draft, draft_of, promised_to_all, readied, with_change, cut_to};
ghost use Rattle.commit_log.specs.DraftsLogging.{IsAppended};

use crate::draft::Draft;
use inno_db::Change;
use redo_log::Log;
use std::alloc::Global;
use std::marker::Model;
use store_api::NoMemory;

/// The drafts of all sessions.
#[derive(Drop)]
pub struct Drafts {
    drafts: Vec<Draft>,
    /// What is promised to all.
    promised: u32,
}

impl Model for Drafts {
    ghost use Rattle.std.specs.Prelude.{◌≡◌, List};
    ghost use Rattle.commit_log.specs.DraftsView.{DraftView, promised_to_all};

    ghost Value = { List DraftView };

    ghost invariant = { λ d. d.promised ≡ promised_to_all d.drafts.items };

    ghost view = { λ d. d.drafts.items };
}

impl Drafts {
    /// Of no session.
    pub fn new(alloc: Global) -> Drafts
        ensures { result ≡ [] }
    {
        Drafts {
            drafts: Vec::new(alloc),
            promised: 0,
        }
    }

    /// One session more, which has changed nothing.
    pub fn join(&mut self) -> Result<(), NoMemory>
        ensures ok { OnOk result (self.new ≡ self.old ++ no_draft ∷ []) }
        ensures promised { promised_to_all self.new ≡ promised_to_all self.old }
        ensures err { OnErr result (self.new ≡ self.old) }
    {
        let draft = Draft::new(*self.drafts.allocator());
        self.drafts.push(draft)?;
        Ok(())
    }

    /// Takes room for one change more of a session, before it is made, here and in the log's spare. The 65,536th change of
    /// a transaction is refused.
    pub fn reserve(&mut self, session: u32, log: &mut Log) -> Result<(), NoMemory>
        requires { session < length self.old }
        ensures ok { OnOk result (self.new ≡ slice_set self.old session (readied (draft_of session self.old))) }
        ensures promised { OnOk result (promised_to_all self.new ≤ log.new.spare) }
        ensures log { record log.new { spare = log.old.spare } ≡ log.old }
        ensures spare { log.old.spare ≤ log.new.spare }
        ensures err { OnErr result (self.new ≡ self.old) }
    {
        let draft = &mut self.drafts[session as usize];
        let others = self.promised - draft.promised();
        self.promised = draft.reserve(others, log)?;
        Ok(())
    }

    /// Adds a change that a session has made, for which there is room.
    pub fn add(&mut self, session: u32, change: &Change)
        requires session { session < length self.old }
        requires ready { (draft_of session self.old).ready ≡ true }
        requires has { HasRecord change.now }
        ensures changes { self.new ≡ slice_set self.old session (with_change change.now (draft_of session self.old)) }
        ensures promised { promised_to_all self.new ≡ promised_to_all self.old }
    {
        let draft = &mut self.drafts[session as usize];
        draft.add(change);
    }

    /// Keeps so many changes of a session, the oldest: the others were taken back.
    pub fn cut(&mut self, session: u32, keep: u64)
        requires { session < length self.old }
        ensures changes { self.new ≡ slice_set self.old session (cut_to keep (draft_of session self.old)) }
        ensures promised { promised_to_all self.new ≡ promised_to_all self.old }
    {
        let draft = &mut self.drafts[session as usize];
        draft.cut(keep);
    }

    /// Forgets the changes of a session: its transaction was rolled back.
    pub fn clear(&mut self, session: u32)
        requires { session < length self.old }
        ensures changes { self.new ≡ slice_set self.old session no_draft }
        ensures promised { promised_to_all self.new ≤ promised_to_all self.old }
    {
        let draft = &mut self.drafts[session as usize];
        self.promised -= draft.promised();
        draft.clear();
    }

    /// Appends the changes of a session as one group, if there are any, and forgets them: its transaction was committed.
    /// Answers up to which LSN the log has to be flushed before the commit may be acknowledged.
    pub fn commit(&mut self, session: u32, log: &mut Log) -> u64
        requires session { session < length self.old }
        requires promised { promised_to_all self.old ≤ log.old.spare }
        ensures due { result + 1 ≡ log.new.next }
        ensures changes { self.new ≡ slice_set self.old session no_draft }
        ensures promised { promised_to_all self.new ≤ log.new.spare }
        ensures none { is_none (draft_of session self.old).changes ≡ true → log.new ≡ log.old }
        ensures some { is_none (draft_of session self.old).changes ≡ false
            → IsAppended (records_of (draft_of session self.old).changes) log.old log.new }
    {
        let draft = &mut self.drafts[session as usize];
        self.promised -= draft.promised();
        draft.commit(log);
        log.last()
    }
}
