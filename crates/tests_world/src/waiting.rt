//! Two sessions that lock: a request waits until the other commits; two wait for one another, and the victim, of whom the
//! history tells, gives way and is rolled back. Statements don't lock yet, so sessions ask by hand.

ghost use Rattle.std.specs.Prelude.{◌≡◌, ◌≢◌, ◌≤◌, ◌<◌, ◌+◌, ℕ, slice_get, IfOk, OnOk, true};
ghost use Rattle.lock_rules.specs.Rules.{FitsItsRule, fits};
ghost use Rattle.lock_table.specs.Keys.{IsShort};
ghost use Rattle.world.specs.EngineCalls.{IsNew};
ghost use Rattle.world.specs.Locks.{Asks};
ghost use Rattle.tests_world.specs.Open.{AreOpen, HasJoined, IsOpen, MayFall};

use deadlock::Cycle;
use inno_model::Event;
use inno_types::{Bound, Bytes, Level, Lock, LockKind, Mode, Range, Reason, Spot};
use list_world::ListWorld;
use lock_rules::{Case, Place, fits};
use std::alloc::{AllocError, Global};
use std::process::Abort;
use std::test::Fail;
use store_api::{Move, NoMemory};
use world::{EngineWorld, LockAnswer, LockWorld, World};

fn assert_fits(rt: &impl Abort, lock: &Lock, case: Case)
    ensures { fits lock.now case ≡ true }
{
    assert!(rt; fits(lock, case));
}

/// The lock of a record of the first table's clustered index, as a change of its row asks for it.
fn record_lock(rt: &impl Abort, alloc: Global, txn: u64, key: u8) -> Result<Lock, AllocError>
    ensures fits { IfOk result FitsItsRule }
    ensures rule { IfOk result (λ lock. lock.reason.rule ≤ 10) }
    ensures short { IfOk result (λ lock. IsShort lock.spot.key) }
    ensures asker { IfOk result (λ lock. lock.txn ≡ txn) }
{
    let rule = 10;
    let level = Level::RepeatableRead;
    let spot = Spot {
        index: 8,
        key: Some(Bytes::from_vec(vec![in alloc; key; 1]?)),
    };
    let case = Case {
        rule,
        level,
        item: 1,
        index: 8,
        range: Range {
            empty: false,
            low: Bound::Open,
            high: Bound::Open,
        },
        mode: Mode::X,
        spot: spot.clone()?,
        marked: false,
        place: Place::New,
    };
    let lock = Lock {
        txn,
        spot,
        kind: LockKind::Rec,
        mode: Mode::X,
        reason: Reason {
            rule,
            item: 1,
            level,
        },
    };
    assert_fits(rt, &lock, case);
    Ok(lock)
}

/// Opens the transaction of a session that has just joined.
fn open<W: EngineWorld>(world: &mut W, s: u32) -> Result<(), NoMemory>
    requires fresh { HasJoined s (W.state world.old) }
    requires few { (W.state world.old).txns.begun < 2 }
    ensures here { OnOk result (IsOpen s ((W.state world.old).txns.begun + 1) (W.state world.new)) }
    ensures others { OnOk result ((t : ℕ) → t ≢ s → slice_get (W.state world.new).sessions t ≡ slice_get (W.state world.old).sessions t) }
    ensures begun { OnOk result ((W.state world.new).txns.begun ≡ (W.state world.old).txns.begun + 1) }
{
    let level = Level::RepeatableRead;
    let txn = world.begin(s, level)?;
    world.add_begin(s, txn, level)
}

/// Two sessions join a new world.
fn join_two<W: EngineWorld>(alloc: Global, world: &mut W) -> Result<(), NoMemory>
    requires new { IsNew (W.state world.old) }
    ensures first { OnOk result (HasJoined 0 (W.state world.new)) }
    ensures second { OnOk result (HasJoined 1 (W.state world.new)) }
    ensures none { OnOk result ((W.state world.new).txns.begun ≡ 0) }
{
    world.join(Bytes::new(alloc))?;
    world.join(Bytes::new(alloc))?;
    Ok(())
}

/// Two sessions join a new world, and each opens its transaction.
fn open_two<W: EngineWorld>(alloc: Global, world: &mut W) -> Result<(), NoMemory>
    requires new { IsNew (W.state world.old) }
    ensures both { OnOk result (AreOpen (W.state world.new)) }
{
    join_two(alloc, world)?;
    open(world, 0)?;
    open(world, 1)
}

/// Asks for a lock of the session's transaction, which waits for nothing.
fn ask_for<W: LockWorld>(rt: &impl Abort, world: &mut W, s: u32, lock: Lock) -> LockAnswer
    requires mine { IsOpen s lock.txn (W.state world.old) }
    requires fits { FitsItsRule lock }
    requires rule { lock.reason.rule ≤ 10 }
    requires short { IsShort lock.spot.key }
    ensures asks { Asks s lock 0 (W.state world.old) (W.state world.new) result }
{
    if !world.is_granted(s) {
        panic!(rt; "it waits already");
    }
    world.ask(s, lock, 0)
}

/// The first session asks for the record of a key.
fn ask_first<W: LockWorld>(
    rt: &impl Abort,
    alloc: Global,
    world: &mut W,
    key: u8,
) -> Result<LockAnswer, NoMemory>
    requires both { AreOpen (W.state world.old) }
    ensures both { AreOpen (W.state world.new) }
{
    let lock = record_lock(rt, alloc, 1, key)?;
    Ok(ask_for(rt, world, 0, lock))
}

/// The second session does.
fn ask_second<W: LockWorld>(
    rt: &impl Abort,
    alloc: Global,
    world: &mut W,
    key: u8,
) -> Result<LockAnswer, NoMemory>
    requires both { AreOpen (W.state world.old) }
    ensures both { AreOpen (W.state world.new) }
    ensures rooms { IfOk result (λ answer. answer ≡ LockAnswer.Waits → MayFall (W.state world.new)) }
{
    let lock = record_lock(rt, alloc, 2, key)?;
    Ok(ask_for(rt, world, 1, lock))
}

/// Whether a transaction has the record of a key.
fn has<W: LockWorld>(
    rt: &impl Abort,
    alloc: Global,
    world: &W,
    txn: u64,
    key: u8,
) -> Result<bool, NoMemory> {
    let lock = record_lock(rt, alloc, txn, key)?;
    Ok(world.holds(&lock))
}

/// The first session has a record, the second asks for it, and the first commits: how each request is answered, and whether
/// the second has the lock before the commit and after it.
fn wait_for_a_commit<W: LockWorld>(
    rt: &impl Abort,
    alloc: Global,
    world: &mut W,
) -> Result<([LockAnswer; 2], [bool; 2]), NoMemory>
    requires both { AreOpen (W.state world.old) }
{
    let answers = [
        ask_first(rt, alloc, world, 7)?,
        ask_second(rt, alloc, world, 7)?,
    ];
    let before = has(rt, alloc, world, 2, 7)?;
    assert!(rt; matches!(world.commit(0), Move::Done));
    Ok((answers, [before, has(rt, alloc, world, 2, 7)?]))
}

/// The cycle of waits through the second session, which falls: of how many edges it is.
fn fall_second<W: LockWorld>(rt: &impl Abort, world: &mut W) -> usize
    requires both { AreOpen (W.state world.old) }
    requires may { MayFall (W.state world.old) }
    ensures both { AreOpen (W.state world.new) }
{
    let Some(
        Cycle {
            edges,
            first_copy,
            second_copy,
        },
    ) = world.cycle(1)
    else {
        panic!(rt; "there is no cycle");
    };
    drop(first_copy);
    drop(second_copy);
    let length = edges.len();
    world.fall(1, edges);
    length
}

/// Each has a record and asks for the other's. The second falls and is rolled back: how many edges the cycle has, and whether
/// the first has the record that it asked for, before the second falls and after its rollback.
fn fall_into_a_deadlock<W: LockWorld>(
    rt: &impl Abort,
    alloc: Global,
    world: &mut W,
) -> Result<([LockAnswer; 3], usize, [bool; 2]), NoMemory>
    requires both { AreOpen (W.state world.old) }
{
    let answers = [
        ask_first(rt, alloc, world, 7)?,
        ask_second(rt, alloc, world, 8)?,
        ask_first(rt, alloc, world, 8)?,
    ];
    if ask_second(rt, alloc, world, 7)? != LockAnswer::Waits {
        panic!(rt; "the second doesn't wait");
    }
    let before = has(rt, alloc, world, 1, 8)?;
    let edges = fall_second(rt, world);
    assert!(rt; world.is_fallen(1));
    assert!(rt; matches!(world.roll_back(1), Move::Done));
    Ok((answers, edges, [before, has(rt, alloc, world, 1, 8)?]))
}

#[test]
fn a_commit_grants_what_waits(rt: HostRuntime) -> Result<(), Fail> {
    let mut world = ListWorld::new(rt.alloc())?;
    open_two(rt.alloc(), &mut world)?;
    let (answers, held) = wait_for_a_commit(&rt, rt.alloc(), &mut world)?;
    let entries = world.history().events().len();
    drop(world);
    assert_eq!(rt; answers, [LockAnswer::Granted, LockAnswer::Waits]);
    assert_eq!(rt; held, [false, true]);
    // two beginnings, one wait, one commit
    assert_eq!(rt; entries, 4);
    Ok(())
}

#[test]
fn a_victim_gives_way_when_it_is_rolled_back(rt: HostRuntime) -> Result<(), Fail> {
    let mut world = ListWorld::new(rt.alloc())?;
    open_two(rt.alloc(), &mut world)?;
    let (answers, edges, held) = fall_into_a_deadlock(&rt, rt.alloc(), &mut world)?;
    let entries = world.history().events();
    let count = entries.len();
    let tells_victim = matches!(entries.get(4), Some(Event::Victim { .. }));
    drop(world);
    let want = [LockAnswer::Granted, LockAnswer::Granted, LockAnswer::Waits];
    assert_eq!(rt; answers, want);
    assert_eq!(rt; edges, 2);
    assert_eq!(rt; held, [false, true]);
    // two beginnings, two waits, the victim and its rollback
    assert_eq!(rt; count, 6);
    assert!(rt; tells_victim);
    Ok(())
}
