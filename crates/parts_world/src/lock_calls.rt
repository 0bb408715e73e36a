//! The calls of locks of a world. The lock table keeps the locks; what a request and a victim mean to the
//! history stands here. No statement asks yet.

ghost use Rattle.std.specs.Prelude.{◌≡◌, true};
ghost use Rattle.lock_table.specs.View.{must_wait};
ghost use Rattle.parts_world.specs.Parts.{world_of};
ghost use Rattle.world.specs.State.{Session, Work, HasWork};
ghost use Rattle.world.specs.Locks.{MayAsk, Asks};

use crate::parts_world::PartsWorld;
use deadlock::{Cycle, cycle_through};
use index_store::IndexStore;
use inno_model::Event;
use inno_types::{Edges, Lock, Spot};
use lock_table::Wait;
use store_api::{Asked, NoMemory};
use world::{LockAnswer, LockWorld};
use world_parts::{holder, take_room};

impl<I: IndexStore> PartsWorld<I> {
    /// The number of the session's open transaction.
    fn txn(&self, s: u32) -> u64
        requires { (session : Session) × (work : Work) × HasWork s session work (world_of (I.store self.now.store) self.now) }
        ensures { (session : Session) (work : Work) → HasWork s session work (world_of (I.store self.now.store) self.now) → result ≡ work.txn }
    {
        self.sessions[s as usize].standing().txn.unwrap_or(0)
    }

    /// Puts a request that has to wait at the end of the queue, and tells it in the history.
    fn queue(&mut self, s: u32, lock: Lock, at: u64) -> LockAnswer
        requires may { MayAsk s lock (world_of (I.store self.old.store) self.old) }
        requires waits { must_wait (world_of (I.store self.old.store) self.old).locks lock ≡ true }
        ensures { Asks s lock at (world_of (I.store self.old.store) self.old) (world_of (I.store self.new.store) self.new) result }
    {
        let requests = self.locks.requests().len();
        let Ok(()) = self.fallen.reserve(requests + 1) else {
            drop(lock);
            return LockAnswer::NoMemory;
        };
        let Ok(()) = take_room(&mut self.history, &self.sessions, requests, 2) else {
            drop(lock);
            return LockAnswer::NoMemory;
        };
        let Ok(asked) = lock.copied() else {
            drop(lock);
            return LockAnswer::NoMemory;
        };
        match self.locks.request(asked) {
            Asked::Waits { blockers } => {
                let told = Event::Waits {
                    s,
                    lock,
                    blockers,
                    at,
                };
                self.history.add(told);
                LockAnswer::Waits
            }
            other => {
                drop(other);
                drop(lock);
                LockAnswer::NoMemory
            }
        }
    }
}

impl<I: IndexStore> LockWorld for PartsWorld<I> {
    fn ask(&mut self, s: u32, lock: Lock, at: u64) -> LockAnswer {
        if self.locks.would_wait(&lock) {
            return self.queue(s, lock, at);
        }
        match self.locks.request(lock) {
            Asked::Granted => LockAnswer::Granted,
            other => {
                drop(other);
                LockAnswer::NoMemory
            }
        }
    }

    fn holds(&self, lock: &Lock) -> bool {
        self.locks.holds(lock)
    }

    fn would_wait(&self, lock: &Lock) -> bool {
        self.locks.would_wait(lock)
    }

    fn is_granted(&self, s: u32) -> bool {
        self.locks.granted(self.txn(s))
    }

    fn wait(&self, lock: &Lock) -> Wait {
        self.locks.wait(lock)
    }

    fn edges(&self, s: u32, out: &mut Edges) -> Result<(), NoMemory> {
        self.locks.edges(self.txn(s), out)
    }

    fn withdraw(&mut self, s: u32) {
        let txn = self.txn(s);
        self.locks.withdraw(txn);
    }

    fn release_one(&mut self, lock: &Lock) {
        self.locks.release_one(lock);
    }

    fn lock_room(&mut self, s: u32, next: &Spot) -> Result<(), NoMemory> {
        let txn = self.txn(s);
        self.locks.lock_room(txn, next)
    }

    fn on_insert(&mut self, lock: &Lock, next: &Spot) {
        self.locks.grant_new(lock, next);
    }

    fn on_remove(&mut self, by: Option<u64>, gone: &Spot, next: &Spot) {
        self.locks.on_remove(by, gone, next);
    }

    fn cycle(&mut self, s: u32) -> Option<Cycle> {
        let txn = self.txn(s);
        cycle_through(&mut self.locks, txn)
    }

    fn fall(&mut self, s: u32, cycle: Edges) {
        let victim = self.txn(s);
        self.locks.withdraw(victim);
        self.fallen.push_reserved(victim);
        self.history.add(Event::Victim { s, cycle });
    }

    fn is_fallen(&self, s: u32) -> bool {
        self.fallen.contains(&self.txn(s))
    }

    fn own_count(&self, txn: u64) -> u64 {
        match holder(&self.sessions, txn) {
            Some(s) => self.sessions[s].standing().own,
            None => 0,
        }
    }
}
