//! The table of all locks. Each call that changes it says what its two lists are afterwards.
//! Its lists are changed by these calls alone: the world of the store makes them, and tests.

ghost use Rattle.std.specs.Prelude.{◌≡◌, ℕ, if◌then◌else◌, ◌+◌, ◌≤◌, ◌∷◌, ◌++◌, [], false, true, not, length, map, vec_capacity, OnOk, OnErr, IfOk};
ghost use Rattle.lock_rules.specs.Rules.{FitsItsRule};
ghost use Rattle.lock_table.specs.Keys.{IsShort};
ghost use Rattle.lock_table.specs.Queue.{AreOthers, AreSound, blockers, edge_to, edges_of, is_blocked, is_covered, is_waiting, serve, without, without_lock};
ghost use Rattle.lock_table.specs.Records.{after_removal, own_gaps};
ghost use Rattle.lock_table.specs.Room.{HasRooms, KeepsRooms};
ghost use Rattle.lock_table.specs.View.{with_lists, without_request, without_transaction, wait_of, others, after_insertion, must_wait, HasPlaces, IsAskedFor, IsAnswered};

use crate::kept::KeptLock;
use crate::lists::{
    add_lock, copy_gaps, edges_of, edges_to, give_back, is_among, is_blocked, is_intent,
    is_waiting, keep_others, leave_gaps, move_locks, own_gaps, serve, stands,
};
use crate::room::{CycleRoom, widen};
use crate::wait::Wait;
use inno_types::{Edges, Lock, Spot};
use std::alloc::Global;
use std::marker::Model;
use std::mem;
use store_api::{Asked, NoMemory};

/// The granted locks and the requests that wait. Contracts see both as lists of locks.
#[derive(Drop)]
pub struct LockTable {
    alloc: Global,
    granted: Vec<KeptLock>,
    waiting: Vec<KeptLock>,
    /// The transactions whose last request that waited was taken back. There is room for one more for each request.
    withdrawn: Vec<u64>,
    rooms: Vec<CycleRoom>,
}

impl Model for LockTable {
    ghost use Rattle.std.specs.Prelude.{◌+◌, ◌≤◌, length, vec_capacity};
    ghost use Rattle.lock_table.specs.View.{Table};
    ghost use Rattle.lock_table.specs.Queue.{AreOthers, AreSound};

    ghost Value = { Table };

    ghost view = { λ t. record { granted = t.granted.items; waiting = t.waiting.items; withdrawn = t.withdrawn.items; rooms = t.rooms.items; capacity = vec_capacity t.granted } };

    ghost invariant = { λ t. AreSound t.granted.items t.waiting.items × (length t.granted.items + length t.waiting.items ≤ vec_capacity t.granted) × (length t.withdrawn.items + length t.waiting.items ≤ vec_capacity t.withdrawn) × AreOthers t.withdrawn.items t.waiting.items };
}

impl LockTable {
    /// No lock is granted and nobody waits.
    pub fn new(alloc: Global) -> Self
        ensures { result ≡ record { granted = []; waiting = []; withdrawn = []; rooms = []; capacity = 0 } }
    {
        LockTable {
            alloc,
            granted: Vec::new(alloc),
            waiting: Vec::new(alloc),
            withdrawn: Vec::new(alloc),
            rooms: Vec::new(alloc),
        }
    }

    /// Asks for a lock. Where it waits, the answer has all that it waits for. Want of memory changes nothing. An insert
    /// intention that need not wait is granted and not kept, so it takes no memory.
    pub fn request(&mut self, lock: Lock) -> Asked
        requires fits { FitsItsRule lock }
        requires rule { IsAskedFor lock.reason.rule }
        requires short { IsShort lock.spot.key }
        requires single { is_waiting lock.txn self.old.waiting ≡ false }
        ensures { IsAnswered self.old self.new lock result }
    {
        if self.holds(&lock) {
            return Asked::Granted;
        }
        let asked = KeptLock::new(&lock);
        if is_blocked(&self.granted, &self.waiting, &asked) {
            match self.queue(asked) {
                Ok(blockers) => Asked::Waits { blockers },
                Err(NoMemory) => Asked::NoMemory,
            }
        } else if is_intent(asked.kind()) {
            Asked::Granted
        } else {
            match self.grant(asked) {
                Ok(()) => Asked::Granted,
                Err(NoMemory) => Asked::NoMemory,
            }
        }
    }

    /// Whether a request for this lock would wait, without making it.
    pub fn would_wait(&self, lock: &Lock) -> bool
        requires { IsShort lock.now.spot.key }
        ensures { result ≡ must_wait self.now lock.now }
    {
        !self.holds(lock) && is_blocked(&self.granted, &self.waiting, &KeptLock::new(lock))
    }

    /// Takes the memory for the locks of a record that the transaction is about to insert before the next one: for the
    /// copies that `grant_new` makes, and for the lock of the record. Its intention there takes none where it need not wait.
    pub fn lock_room(&mut self, txn: u64, next: &Spot) -> Result<(), NoMemory>
        ensures room { OnOk result (HasPlaces (own_gaps txn next.now self.old.granted + 1) self.new) }
        ensures same { self.new ≡ record self.old { capacity = self.new.capacity } }
        ensures stays { self.old.capacity ≤ self.new.capacity }
    {
        let own = own_gaps(&self.granted, txn, next);
        self.granted.reserve(self.waiting.len() + own + 1)?;
        Ok(())
    }

    /// Whether no request of the transaction waits.
    pub fn granted(&self, txn: u64) -> bool
        ensures { result ≡ not (is_waiting txn self.now.waiting) }
    {
        !is_waiting(&self.waiting, txn)
    }

    /// Whether one granted lock of the transaction covers this one. An insert intention is never covered.
    pub fn holds(&self, lock: &Lock) -> bool
        ensures { result ≡ is_covered self.now.granted lock.now }
    {
        self.granted.iter().any(|held| held.covers_lock(lock))
    }

    /// How it stands with a request for this lock that had to wait.
    pub fn wait(&self, lock: &Lock) -> Wait
        ensures { result ≡ wait_of self.now lock.now }
    {
        if is_waiting(&self.waiting, lock.txn) {
            Wait::Lasts
        } else if is_among(&self.withdrawn, lock.txn) {
            Wait::Withdrawn
        } else if stands(&self.granted, lock) {
            Wait::Served
        } else {
            Wait::RecordGone
        }
    }

    /// Takes the transaction's request back, and grants requests in order.
    pub fn withdraw(&mut self, txn: u64)
        ensures { self.new ≡ without_request txn self.old }
    {
        note(&mut self.withdrawn, &self.waiting, txn);
        keep_others(&mut self.waiting, txn);
        serve(&mut self.granted, &mut self.waiting);
    }

    /// The transaction ends: its locks and its request go, and requests are granted in order.
    pub fn release_all(&mut self, txn: u64)
        ensures { self.new ≡ without_transaction txn self.old }
    {
        keep_others(&mut self.granted, txn);
        keep_others(&mut self.waiting, txn);
        forget(&mut self.withdrawn, txn);
        serve(&mut self.granted, &mut self.waiting);
    }

    /// Gives one lock back, and grants requests in order.
    pub fn release_one(&mut self, lock: &Lock)
        ensures { self.new ≡ with_lists self.old (serve (without_lock lock.now self.old.granted) [] self.old.waiting) }
    {
        give_back(&mut self.granted, lock);
        serve(&mut self.granted, &mut self.waiting);
    }

    /// The record of the lock's spot was inserted before the next one, or before the supremum, by the lock's transaction: its
    /// own locks of the gap there are copied to the record, and the lock is granted. Takes no memory: `lock_room` has.
    pub fn grant_new(&mut self, lock: &Lock, next: &Spot)
        requires fits { FitsItsRule lock.now }
        requires rule { IsAskedFor lock.now.reason.rule }
        requires short { IsShort lock.now.spot.key }
        requires free { must_wait self.old lock.now ≡ false }
        requires room { HasPlaces (own_gaps lock.now.txn next.now self.old.granted + 1) self.old }
        ensures { self.new ≡ record self.old { granted = after_insertion next.now lock.now self.old.granted } }
    {
        copy_gaps(&mut self.granted, lock.txn, &lock.spot, next);
        add_lock(&mut self.granted, KeptLock::new(lock));
    }

    /// A record goes by the rollback of a transaction, or by purge: locks on it become gap locks on the next record or
    /// the supremum, and requests on it end their wait.
    pub fn on_remove(&mut self, by: Option<u64>, gone: &Spot, next: &Spot)
        requires { IsShort next.now.key }
        ensures { self.new ≡ with_lists self.old (after_removal by gone.now next.now self.old.granted self.old.waiting) }
    {
        move_locks(&mut self.granted, by, gone, next);
        leave_gaps(&mut self.granted, &mut self.waiting, by, gone, next);
        serve(&mut self.granted, &mut self.waiting);
    }

    /// All for which the transaction's request waits: granted locks in order of grant, then earlier requests in order.
    pub fn edges(&self, txn: u64, out: &mut Edges) -> Result<(), NoMemory>
        ensures ok { OnOk result (out.new ≡ edges_of txn self.now.granted self.now.waiting) }
        ensures err { OnErr result (out.new ≡ out.old) }
    {
        *out = edges_of(self.alloc, &self.granted, &self.waiting, txn)?;
        Ok(())
    }

    /// The granted locks, in order of grant.
    pub fn granted_locks(&self) -> &[KeptLock]
        ensures { result.now ≡ self.now.granted }
    {
        self.granted.as_slice()
    }

    /// The requests that wait, in order.
    pub fn requests(&self) -> &[KeptLock]
        ensures { result.now ≡ self.now.waiting }
    {
        self.waiting.as_slice()
    }

    /// Takes the memory for cycles out of the table, while the table is read.
    pub fn take_rooms(&mut self) -> Vec<CycleRoom>
        ensures rooms { result.items ≡ self.old.rooms }
        ensures rest { self.new ≡ record self.old { rooms = [] } }
    {
        mem::replace(&mut self.rooms, Vec::new(self.alloc))
    }

    /// Puts the memory for cycles back.
    pub fn put_rooms(&mut self, rooms: Vec<CycleRoom>)
        ensures { self.new ≡ record self.old { rooms = rooms.items } }
    {
        self.rooms = rooms;
    }

    /// The facts of every lock table.
    pub fn facts(&self)
        ensures sound { AreSound self.now.granted self.now.waiting }
        ensures others { AreOthers self.now.withdrawn self.now.waiting }
    {
        let _ = &self.granted;
    }

    /// Puts a request at the end of the queue, and gives all for which it waits.
    fn queue(&mut self, asked: KeptLock) -> Result<Edges, NoMemory>
        requires fits { FitsItsRule asked }
        requires single { is_waiting asked.txn self.old.waiting ≡ false }
        requires blocked { is_blocked self.old.granted self.old.waiting asked ≡ true }
        ensures edges { IfOk result (λ edges. edges ≡ map (edge_to asked.txn) (blockers self.old.granted self.old.waiting asked)) }
        ensures granted { self.new.granted ≡ self.old.granted }
        ensures ok { OnOk result (self.new.waiting ≡ self.old.waiting ++ asked ∷ []) }
        ensures rooms { OnOk result (HasRooms (length self.new.waiting) self.new.rooms) }
        ensures err { OnErr result (self.new.waiting ≡ self.old.waiting) }
        ensures withdrawn { OnOk result (self.new.withdrawn ≡ others asked.txn self.old.withdrawn) }
        ensures remembered { OnErr result (self.new.withdrawn ≡ self.old.withdrawn) }
        ensures stays { KeepsRooms self.old.rooms self.new.rooms }
        ensures capacity { self.old.capacity ≤ self.new.capacity }
    {
        let edges = edges_to(self.alloc, &self.granted, &self.waiting, &asked)?;
        let waiting = self.waiting.len() + 1;
        self.granted.reserve(waiting)?;
        self.withdrawn.reserve(waiting)?;
        widen(&mut self.rooms, self.alloc, waiting)?;
        self.waiting.reserve(1)?;
        forget(&mut self.withdrawn, asked.txn());
        self.waiting.push_reserved(asked);
        Ok(edges)
    }

    fn grant(&mut self, asked: KeptLock) -> Result<(), NoMemory>
        requires fits { FitsItsRule asked }
        requires free { is_blocked self.old.granted self.old.waiting asked ≡ false }
        ensures ok { OnOk result (self.new ≡ record self.old { granted = self.old.granted ++ asked ∷ []; capacity = self.new.capacity }) }
        ensures err { OnErr result (self.new ≡ self.old) }
        ensures stays { self.old.capacity ≤ self.new.capacity }
        ensures full { OnErr result (¬ HasPlaces 1 self.old) }
    {
        self.granted.reserve(self.waiting.len() + 1)?;
        self.granted.push_reserved(asked);
        Ok(())
    }
}

/// Keeps the other transactions.
fn forget(txns: &mut Vec<u64>, txn: u64)
    ensures items { txns.new.items ≡ others txn txns.old.items }
    ensures fewer { length txns.new.items ≤ length txns.old.items }
    ensures capacity { vec_capacity txns.new ≡ vec_capacity txns.old }
{
    txns.retain(|other| *other != txn);
}

/// Adds the transaction, if it has a request.
fn note(withdrawn: &mut Vec<u64>, waiting: &[KeptLock], txn: u64)
    requires { length withdrawn.old.items + length waiting.now ≤ vec_capacity withdrawn.old }
    ensures items { withdrawn.new.items ≡ (if is_waiting txn waiting.now then withdrawn.old.items ++ txn ∷ [] else withdrawn.old.items) }
    ensures room { length withdrawn.new.items + length (without txn waiting.now) ≤ vec_capacity withdrawn.new }
{
    if is_waiting(waiting, txn) {
        withdrawn.push_reserved(txn);
    }
}
