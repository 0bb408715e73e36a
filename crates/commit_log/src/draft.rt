//! The draft of one session: the records of its changes as bytes, the oldest first, and where each begins.
//! Only the drafts of all sessions hold such a one.

ghost use Rattle.std.specs.Prelude.{◌≡◌, ◌+◌, ◌≤◌, [], ◌∷◌, ◌++◌, true, false, OnOk, OnErr, IfOk, vec_len, vec_capacity};
ghost use Rattle.law_crashes.specs.Records.{records_of};
ghost use Rattle.law_crashes.specs.Commits.{is_none};
ghost use Rattle.commit_log.specs.Room.{HasRecord};
ghost use Rattle.commit_log.specs.DraftsView.{no_draft, readied, with_change, cut_to, room_with_one_more};
ghost use Rattle.commit_log.specs.DraftsLogging.{IsAppended};

use crate::draft_logging::append_reserved;
use crate::{MOST_RECORD, put_change_reserved};
use inno_db::Change;
use redo_log::Log;
use std::alloc::Global;
use std::marker::Model;
use store_api::NoMemory;

/// The most changes of one transaction: a group counts its records in 16 bits.
const MOST_CHANGES: usize = 65_535;

#[derive(Drop)]
pub struct Draft {
    bytes: Vec<u8>,
    starts: Vec<u32>,
    /// Whether there is room for one change more.
    ready: bool,
    /// So much of the log's spare.
    promised: u32,
}

impl Model for Draft {
    ghost use Rattle.std.specs.Prelude.{length, vec_capacity};
    ghost use Rattle.commit_log.specs.DraftsView.{DraftView};
    ghost use Rattle.commit_log.specs.Drafted.{drafted, IsDraft};

    ghost Value = { DraftView };

    ghost invariant = { λ d. IsDraft (drafted (length d.starts.items) d.bytes.items) d.bytes.items d.starts.items
        d.ready d.promised (vec_capacity d.bytes) (vec_capacity d.starts) };

    ghost view = { λ d. record { changes = drafted (length d.starts.items) d.bytes.items; ready = d.ready; promised = d.promised } };
}

impl Draft {
    pub fn new(alloc: Global) -> Draft
        ensures { result ≡ no_draft }
    {
        Draft {
            bytes: Vec::new(alloc),
            starts: Vec::new(alloc),
            ready: false,
            promised: 0,
        }
    }

    pub fn promised(&self) -> u32
        ensures { result ≡ self.now.promised }
    {
        self.promised
    }

    /// Takes room for one change more, and promises the group with it its room in the log. Answers how much is promised
    /// to all sessions then.
    pub fn reserve(&mut self, others: u32, log: &mut Log) -> Result<u32, NoMemory>
        ensures ok { OnOk result (self.new ≡ readied self.old) }
        ensures total { IfOk result (λ total. total ≡ others + room_with_one_more self.old.changes) }
        ensures promised { IfOk result (λ total. total ≤ log.new.spare) }
        ensures log { record log.new { spare = log.old.spare } ≡ log.old }
        ensures spare { log.old.spare ≤ log.new.spare }
        ensures err { OnErr result (self.new ≡ self.old) }
    {
        if self.starts.len() >= MOST_CHANGES {
            return Err(NoMemory);
        }
        let most = 14 + self.bytes.len() + MOST_RECORD;
        let promised = 512 * ((most + 483) / 484);
        let Ok(total) = u32::try_from(others as usize + promised) else {
            return Err(NoMemory);
        };
        log.reserve(total)?;
        take_room(&mut self.bytes, &mut self.starts)?;
        self.ready = true;
        self.promised = total - others;
        Ok(total)
    }

    /// Adds a change, for which there is room.
    pub fn add(&mut self, change: &Change)
        requires ready { self.old.ready ≡ true }
        requires has { HasRecord change.now }
        ensures { self.new ≡ with_change change.now self.old }
    {
        let start = self.bytes.len() as u32;
        put_change_reserved(change, &mut self.bytes);
        push_reserved(start, &mut self.starts);
        self.ready = false;
    }

    /// Keeps so many changes, the oldest.
    pub fn cut(&mut self, keep: u64)
        ensures { self.new ≡ cut_to keep self.old }
    {
        let keep = keep as usize;
        if keep < self.starts.len() {
            let start = self.starts[keep] as usize;
            self.bytes.truncate(start);
            self.starts.truncate(keep);
        }
    }

    pub fn clear(&mut self)
        ensures { self.new ≡ no_draft }
    {
        self.bytes.clear();
        self.starts.clear();
        self.ready = false;
        self.promised = 0;
    }

    /// Appends the changes as one group, if there are any, and forgets them.
    pub fn commit(&mut self, log: &mut Log)
        requires { self.old.promised ≤ log.old.spare }
        ensures cleared { self.new ≡ no_draft }
        ensures none { self.old.changes ≡ [] → log.new ≡ log.old }
        ensures some { is_none self.old.changes ≡ false → IsAppended (records_of self.old.changes) log.old log.new }
        ensures spare { log.old.spare ≤ log.new.spare + self.old.promised }
    {
        if self.starts.is_empty() {
            self.clear();
            return;
        }
        append_reserved(self.starts.len() as u16, &self.bytes, log);
        self.clear();
    }
}

/// Takes room for the record of one change more.
fn take_room(bytes: &mut Vec<u8>, starts: &mut Vec<u32>) -> Result<(), NoMemory>
    ensures bytes { OnOk result (vec_len bytes.old + MOST_RECORD ≤ vec_capacity bytes.new) }
    ensures starts { OnOk result (vec_len starts.old + 1 ≤ vec_capacity starts.new) }
    ensures bytes_same { bytes.new.items ≡ bytes.old.items }
    ensures bytes_grow { vec_capacity bytes.old ≤ vec_capacity bytes.new }
    ensures starts_same { starts.new.items ≡ starts.old.items }
    ensures starts_grow { vec_capacity starts.old ≤ vec_capacity starts.new }
{
    bytes.reserve(MOST_RECORD)?;
    starts.reserve(1)?;
    Ok(())
}

/// A vector asks for memory only past its capacity.
fn push_reserved(start: u32, starts: &mut Vec<u32>)
    requires { vec_len starts.old + 1 ≤ vec_capacity starts.old }
    ensures items { starts.new.items ≡ starts.old.items ++ start ∷ [] }
    ensures grows { vec_capacity starts.old ≤ vec_capacity starts.new }
{
    match starts.push(start) {
        Ok(()) => {}
        Err(_) => unreachable!(),
    }
}
