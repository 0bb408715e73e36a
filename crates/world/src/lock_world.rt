//! The calls of a world by which sessions lock records and gaps, wait for one another, and are freed of a cycle.
//! No statement makes them yet: while one session alone writes, nobody has to wait. `PartsWorld` alone answers them.

ghost use Rattle.std.specs.Prelude.{◌≡◌, ℕ, ◌+◌, ◌∷◌, [], true, false, not, is_some, length, OnOk, OnErr, IfSome, IfNone, if◌then◌else◌, ◌-◌};
ghost use Rattle.deadlock.specs.Cycles.{AreCopies, IsCycleThrough, HasNoCycle, IsDepthFirst};
ghost use Rattle.lock_table.specs.Keys.{IsShort};
ghost use Rattle.lock_table.specs.Queue.{edges_of, is_covered, is_waiting, serve, without_lock};
ghost use Rattle.lock_table.specs.Records.{after_removal, own_gaps};
ghost use Rattle.lock_table.specs.Room.{HasRooms};
ghost use Rattle.lock_table.specs.View.{after_insertion, must_wait, wait_of, without_request, HasPlaces};
ghost use Rattle.world.specs.State.{Session, Work, HasWork, with_locks};
ghost use Rattle.world.specs.Locks.{MayAsk, Asks, MayHoldNew, has_fallen, fell};

use crate::World;
use deadlock::Cycle;
use inno_types::{Edges, Lock, Spot};
use lock_table::Wait;
use store_api::NoMemory;

/// What a request for a lock is answered. Where it waits, `edges` gives all that it waits for.
#[derive(Clone, Copy, Debug, PartialEq, Eq)]
pub enum LockAnswer {
    Granted,
    Waits,
    NoMemory,
}

/// A world whose sessions lock. Transactions go by their numbers in order of begin. `commit` and `roll_back` give all
/// locks of a transaction back.
pub trait LockWorld: World {
    /// Asks for a lock, at this moment. A request that waits is told by the history, which has room for a victim's entry
    /// from then on. Want of memory changes nothing.
    /// MySQL 8.0 Reference Manual, "InnoDB Locking".
    fn ask(&mut self, s: u32, lock: Lock, at: u64) -> LockAnswer
        requires { MayAsk s lock (Self.state self.old) }
        ensures { Asks s lock at (Self.state self.old) (Self.state self.new) result };

    /// Whether one granted lock of its transaction covers this one.
    fn holds(&self, lock: &Lock) -> bool
        ensures { result ≡ is_covered (Self.state self.now).locks.granted lock.now };

    /// Whether a request for this lock would wait.
    fn would_wait(&self, lock: &Lock) -> bool
        requires { IsShort lock.now.spot.key }
        ensures { result ≡ must_wait (Self.state self.now).locks lock.now };

    /// Whether the session's transaction waits for no lock.
    fn is_granted(&self, s: u32) -> bool
        requires { (session : Session) × (work : Work) × HasWork s session work (Self.state self.now) }
        ensures { (session : Session) (work : Work) → HasWork s session work (Self.state self.now) → result ≡ not (is_waiting work.txn (Self.state self.now).locks.waiting) };

    /// How it stands with a request for this lock that had to wait.
    fn wait(&self, lock: &Lock) -> Wait
        ensures { result ≡ wait_of (Self.state self.now).locks lock.now };

    /// All that the session's transaction waits for: granted locks in order of grant, then earlier requests in order.
    fn edges(&self, s: u32, out: &mut Edges) -> Result<(), NoMemory>
        requires { (session : Session) × (work : Work) × HasWork s session work (Self.state self.now) }
        ensures ok { OnOk result ((session : Session) (work : Work) → HasWork s session work (Self.state self.now) → out.new ≡ edges_of work.txn (Self.state self.now).locks.granted (Self.state self.now).locks.waiting) }
        ensures err { OnErr result (out.new ≡ out.old) };

    /// Takes the request of the session's transaction back, and grants requests in order.
    fn withdraw(&mut self, s: u32)
        requires { (session : Session) × (work : Work) × HasWork s session work (Self.state self.old) }
        ensures { (session : Session) (work : Work) → HasWork s session work (Self.state self.old) → Self.state self.new ≡ record (Self.state self.old) { locks = without_request work.txn (Self.state self.old).locks } };

    /// Gives one lock back, and grants requests in order.
    fn release_one(&mut self, lock: &Lock)
        ensures { Self.state self.new ≡ with_locks (serve (without_lock lock.now (Self.state self.old).locks.granted) [] (Self.state self.old).locks.waiting) (Self.state self.old) };

    /// Takes the memory for the locks of a record that the session's transaction is about to insert before the next one.
    fn lock_room(&mut self, s: u32, next: &Spot) -> Result<(), NoMemory>
        requires { (session : Session) × (work : Work) × HasWork s session work (Self.state self.old) }
        ensures room { OnOk result ((session : Session) (work : Work) → HasWork s session work (Self.state self.old) → HasPlaces (own_gaps work.txn next.now (Self.state self.old).locks.granted + 1) (Self.state self.new).locks) }
        ensures same { Self.state self.new ≡ record (Self.state self.old) { locks = record (Self.state self.old).locks { capacity = (Self.state self.new).locks.capacity } } };

    /// The record of the lock's spot was inserted before the next one, or before the supremum, by the lock's transaction: its
    /// own locks of the gap there are copied to the record, and the lock is granted. It takes no memory: `lock_room` has.
    fn on_insert(&mut self, lock: &Lock, next: &Spot)
        requires { MayHoldNew lock.now next.now (Self.state self.old) }
        ensures { Self.state self.new ≡ record (Self.state self.old) { locks = record (Self.state self.old).locks { granted = after_insertion next.now lock.now (Self.state self.old).locks.granted } } };

    /// A record goes by the rollback of a transaction, or by purge: locks on it become gap locks on the next record or the
    /// supremum, and requests on it end their wait. It takes no memory.
    fn on_remove(&mut self, by: Option<u64>, gone: &Spot, next: &Spot)
        requires { IsShort next.now.key }
        ensures { Self.state self.new ≡ with_locks (after_removal by gone.now next.now (Self.state self.old).locks.granted (Self.state self.old).locks.waiting) (Self.state self.old) };

    /// The first cycle of waits through the session's transaction that a search meets, if there is one, with two copies. It
    /// takes no memory.
    /// MySQL 8.0 Reference Manual, "Deadlock Detection".
    fn cycle(&mut self, s: u32) -> Option<Cycle>
        requires there { (session : Session) × (work : Work) × HasWork s session work (Self.state self.old) }
        requires rooms { HasRooms (length (Self.state self.old).locks.waiting) (Self.state self.old).locks.rooms }
        ensures found { IfSome result (λ cycle. (session : Session) (work : Work) → HasWork s session work (Self.state self.old) → IsCycleThrough work.txn (Self.state self.old).locks.granted (Self.state self.old).locks.waiting cycle.edges) }
        ensures first { IfSome result (λ cycle. (session : Session) (work : Work) → HasWork s session work (Self.state self.old) → IsDepthFirst work.txn (Self.state self.old).locks.granted (Self.state self.old).locks.waiting cycle.edges) }
        ensures copies { IfSome result AreCopies }
        ensures none { IfNone result ((session : Session) (work : Work) → HasWork s session work (Self.state self.old) → HasNoCycle work.txn (Self.state self.old).locks.granted (Self.state self.old).locks.waiting) }
        ensures rooms { HasRooms (if is_some result then length (Self.state self.old).locks.waiting - 1 else length (Self.state self.old).locks.waiting) (Self.state self.new).locks.rooms }
        ensures same { Self.state self.new ≡ record (Self.state self.old) { locks = record (Self.state self.old).locks { rooms = (Self.state self.new).locks.rooms } } };

    /// The session's transaction, which waits, is the victim of this cycle: its request is taken back, and the history tells
    /// it. It takes no memory.
    fn fall(&mut self, s: u32, cycle: Edges)
        requires { (session : Session) × (work : Work) × HasWork s session work (Self.state self.old) × (is_waiting work.txn (Self.state self.old).locks.waiting ≡ true) }
        ensures { (session : Session) (work : Work) → HasWork s session work (Self.state self.old) → Self.state self.new ≡ fell s work.txn cycle (Self.state self.old) };

    /// Whether the session's transaction was chosen as a victim.
    fn is_fallen(&self, s: u32) -> bool
        requires { (session : Session) × (work : Work) × HasWork s session work (Self.state self.now) }
        ensures { (session : Session) (work : Work) → HasWork s session work (Self.state self.now) → result ≡ has_fallen work.txn (Self.state self.now) };

    /// How many changes of the open transaction stand.
    fn own_count(&self, txn: u64) -> u64
        ensures { (s : ℕ) (session : Session) (work : Work) → HasWork s session work (Self.state self.now) → work.txn ≡ txn → result ≡ work.own };
}
