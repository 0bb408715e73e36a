//! Rounds over cycles of waits: the first one is found, its victim is chosen and falls, and so on.
//! Requests and the history are the world's, which alone changes them; the copies of a cycle go to whoever answers the victim.

ghost use Rattle.std.specs.Prelude.{◌≡◌, ◌+◌, ◌≤◌, ◌<◌, [], length, vec_capacity};
ghost use Rattle.std.specs.List.{AllByRecursion};
ghost use Rattle.waits.specs.Falls.{IsOwned, IsOpenAt, MaySettle, MayFall, HasFallen, HasSettled, Settles, AreCopied};

use deadlock::{Cycle, Sizes, victim};
use inno_types::Edges;
use world::{LockWorld, World};

/// A session whose transaction was chosen as a victim, and the cycle that it ended: one copy for its reply, one for who
/// shows what waits. The history has a third.
#[derive(Drop)]
pub struct Fallen {
    pub session: u32,
    pub txn: u64,
    pub told: Edges,
    pub shown: Edges,
}

/// Ends all cycles of waits through these transactions, each in turn. `asked` is the transaction whose request the step made;
/// it falls among equals. Whoever falls waits no longer, and is told in `fallen`, which has room for as many as wait. It takes no
/// memory.
/// MySQL 8.0 Reference Manual, "Deadlock Detection".
pub fn settle_waits<W: LockWorld>(
    world: &mut W,
    sessions: u32,
    grown: &[u64],
    asked: Option<u64>,
    sizes: &Sizes,
    fallen: &mut Vec<Fallen>,
)
    requires may { MaySettle sessions (W.state world.old) }
    requires grown { AllByRecursion (IsOwned (W.state world.old)) grown.now }
    requires empty { fallen.old.items ≡ [] }
    requires room { length (W.state world.old).locks.waiting ≤ vec_capacity fallen.old }
    ensures settles { Settles grown.now sizes.now asked fallen.new.items (W.state world.old) (W.state world.new) }
    ensures copies { AllByRecursion AreCopied fallen.new.items }
{
    for txn in grown {
        settle_through(world, sessions, *txn, asked, sizes, fallen);
    }
}

/// Ends all cycles through one transaction.
fn settle_through<W: LockWorld>(
    world: &mut W,
    sessions: u32,
    txn: u64,
    asked: Option<u64>,
    sizes: &Sizes,
    fallen: &mut Vec<Fallen>,
)
    requires may { MaySettle sessions (W.state world.old) }
    requires owned { IsOwned (W.state world.old) txn }
    requires room { length fallen.old.items + length (W.state world.old).locks.waiting ≤ vec_capacity fallen.old }
    ensures settles { HasSettled txn sizes.now asked fallen.old.items fallen.new.items (W.state world.old) (W.state world.new) }
    ensures may { MaySettle sessions (W.state world.new) }
    ensures room { length fallen.new.items + length (W.state world.new).locks.waiting ≤ vec_capacity fallen.new }
{
    let session = session_of(world, sessions, txn);
    while let Some(cycle) = world.cycle(session) {
        end_cycle(world, sessions, cycle, asked, sizes, fallen);
    }
}

/// The cycle's victim falls.
fn end_cycle<W: LockWorld>(
    world: &mut W,
    sessions: u32,
    cycle: Cycle,
    asked: Option<u64>,
    sizes: &Sizes,
    fallen: &mut Vec<Fallen>,
)
    requires may { MayFall sessions cycle (W.state world.old) }
    requires room { length fallen.old.items < vec_capacity fallen.old }
    ensures falls { HasFallen sizes.now asked cycle fallen.old.items fallen.new.items (W.state world.old) (W.state world.new) }
    ensures capacity { vec_capacity fallen.new ≡ vec_capacity fallen.old }
{
    let txn = victim(&cycle.edges, sizes, asked);
    let session = session_of(world, sessions, txn);
    let Cycle {
        edges,
        first_copy,
        second_copy,
    } = cycle;
    world.fall(session, edges);
    fallen.push_reserved(Fallen {
        session,
        txn,
        told: first_copy,
        shown: second_copy,
    });
}

/// The session whose open transaction has this number.
fn session_of<W: World>(world: &W, sessions: u32, txn: u64) -> u32
    requires sessions { sessions ≡ length (W.state world.now).sessions }
    requires owned { IsOwned (W.state world.now) txn }
    ensures { IsOpenAt (W.state world.now) result txn }
{
    for session in 0..sessions {
        if world.session(session).txn == Some(txn) {
            return session;
        }
    }
    unreachable!()
}
