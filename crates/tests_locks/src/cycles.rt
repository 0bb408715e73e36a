//! Cycles of two and of three, a chain that is none, and which cycle is found where there are two. The clauses say that a
//! cycle is found exactly where there is one; here some are seen, and the order of the search.

ghost use Rattle.std.specs.Prelude.{◌≡◌, ◌≤◌, IfOk, OnOk, length};
ghost use Rattle.lock_rules.specs.Rules.{FitsItsRule};
ghost use Rattle.lock_table.specs.Keys.{IsShort};
ghost use Rattle.lock_table.specs.Room.{HasRooms};

use deadlock::{Cycle, Size, Sizes, cycle_through, victim};
use inno_types::{Bound, Bytes, Edge, Edges, Level, Lock, LockKind, Mode, Range, Reason, Spot};
use lock_rules::{Case, Place, fits};
use lock_table::LockTable;
use std::alloc::{AllocError, Global};
use std::process::Abort;
use std::test::Fail;
use store_api::Asked;

/// The rule of INSERT's check for duplicates, or of a change.
fn rule_of(mode: Mode) -> u8
    ensures { result ≤ 10 }
{
    match mode {
        Mode::S => 9,
        Mode::X => 10,
    }
}

/// A lock of the record with this key.
fn record_lock(
    rt: &impl Abort,
    alloc: Global,
    txn: u64,
    key: u8,
    mode: Mode,
) -> Result<Lock, AllocError>
    ensures fits { IfOk result FitsItsRule }
    ensures rule { IfOk result (λ lock. lock.reason.rule ≤ 10) }
    ensures short { IfOk result (λ lock. IsShort lock.spot.key) }
    ensures asker { IfOk result (λ lock. lock.txn ≡ txn) }
{
    let rule = rule_of(mode);
    let level = Level::RepeatableRead;
    let spot = Spot {
        index: 8,
        key: Some(Bytes::from_vec(vec![in alloc; key; 1]?)),
    };
    let case = Case {
        rule,
        level,
        item: 1,
        index: 8,
        range: Range {
            empty: false,
            low: Bound::Open,
            high: Bound::Open,
        },
        mode,
        spot: spot.clone()?,
        marked: false,
        place: Place::New,
    };
    let lock = Lock {
        txn,
        spot,
        kind: LockKind::Rec,
        mode,
        reason: Reason {
            rule,
            item: 1,
            level,
        },
    };
    assert!(rt; fits(&lock, case));
    Ok(lock)
}

/// The transaction takes a lock, and waits for none.
fn take(
    rt: &impl Abort,
    alloc: Global,
    locks: &mut LockTable,
    txn: u64,
    key: u8,
    mode: Mode,
) -> Result<(), Fail> {
    let lock = record_lock(rt, alloc, txn, key, mode)?;
    assert!(rt; locks.granted(txn));
    assert!(rt; matches!(locks.request(lock), Asked::Granted));
    Ok(())
}

/// The transaction asks for an exclusive lock, and waits.
fn wait(
    rt: &impl Abort,
    alloc: Global,
    locks: &mut LockTable,
    txn: u64,
    key: u8,
) -> Result<(), Fail>
    ensures { OnOk result (HasRooms (length locks.new.waiting) locks.new.rooms) }
{
    let lock = record_lock(rt, alloc, txn, key, Mode::X)?;
    assert!(rt; locks.granted(txn));
    match locks.request(lock) {
        Asked::Waits { .. } => Ok(()),
        _ => panic!(rt; "the request of {txn} does not wait"),
    }
}

/// Whether the cycle and its copies have these edges.
fn are_edges(cycle: Option<Cycle>, want: &[(u64, u64, u8)]) -> bool {
    let Some(cycle) = cycle else {
        return false;
    };
    has_edges(&cycle.edges, want)
        && has_edges(&cycle.first_copy, want)
        && has_edges(&cycle.second_copy, want)
}

/// Whether the edges are these, each as its waiter, its holder and the key of its lock.
fn has_edges(edges: &Edges, want: &[(u64, u64, u8)]) -> bool {
    let mut is_same = edges.len() == want.len();
    for (edge, (waiter, holder, key)) in edges.as_slice().iter().zip(want) {
        is_same = is_same
            && edge.waiter == *waiter
            && edge.holder == *holder
            && has_key(edge, *key);
    }
    is_same
}

fn has_key(edge: &Edge, key: u8) -> bool {
    match &edge.lock.spot.key {
        Some(bytes) => bytes.as_slice() == [key].as_slice(),
        None => false,
    }
}

/// Whether one that waits is in no cycle, and both are in one once each waits for the other.
fn two_wait(rt: &impl Abort, alloc: Global, locks: &mut LockTable) -> Result<(bool, bool), Fail> {
    take(rt, alloc, locks, 1, b'a', Mode::X)?;
    take(rt, alloc, locks, 2, b'b', Mode::X)?;
    wait(rt, alloc, locks, 1, b'b')?;
    let is_free = cycle_through(locks, 1).is_none();
    wait(rt, alloc, locks, 2, b'a')?;
    let want = [(2, 1, b'a'), (1, 2, b'b')];
    Ok((is_free, are_edges(cycle_through(locks, 2), &want)))
}

#[test]
fn two_wait_for_each_other(rt: HostRuntime) -> Result<(), Fail> {
    let mut locks = LockTable::new(rt.alloc());
    let found = two_wait(&rt, rt.alloc(), &mut locks);
    drop(locks);
    assert_eq!(rt; found?, (true, true));
    Ok(())
}

fn three_wait(rt: &impl Abort, alloc: Global, locks: &mut LockTable) -> Result<bool, Fail> {
    take(rt, alloc, locks, 1, b'a', Mode::X)?;
    take(rt, alloc, locks, 2, b'b', Mode::X)?;
    take(rt, alloc, locks, 3, b'c', Mode::X)?;
    wait(rt, alloc, locks, 1, b'b')?;
    wait(rt, alloc, locks, 2, b'c')?;
    wait(rt, alloc, locks, 3, b'a')?;
    let want = [(3, 1, b'a'), (1, 2, b'b'), (2, 3, b'c')];
    Ok(are_edges(cycle_through(locks, 3), &want))
}

#[test]
fn three_wait_in_a_circle(rt: HostRuntime) -> Result<(), Fail> {
    let mut locks = LockTable::new(rt.alloc());
    let found = three_wait(&rt, rt.alloc(), &mut locks);
    drop(locks);
    assert!(rt; found?);
    Ok(())
}

/// The second waits for the first, and the third for both: whether the last and the first are in no cycle.
fn chain(rt: &impl Abort, alloc: Global, locks: &mut LockTable) -> Result<bool, Fail> {
    take(rt, alloc, locks, 1, b'a', Mode::X)?;
    wait(rt, alloc, locks, 2, b'a')?;
    wait(rt, alloc, locks, 3, b'a')?;
    if cycle_through(locks, 3).is_some() {
        return Ok(false);
    }
    Ok(cycle_through(locks, 1).is_none())
}

#[test]
fn a_chain_is_no_cycle(rt: HostRuntime) -> Result<(), Fail> {
    let mut locks = LockTable::new(rt.alloc());
    let found = chain(&rt, rt.alloc(), &mut locks);
    drop(locks);
    assert!(rt; found?);
    Ok(())
}

/// The first waits for a lock of the second, which was granted before that of the third. Both wait for the first: the
/// third itself, the second by way of the fourth. The search goes down to the fourth before it looks at the third.
fn two_cycles(rt: &impl Abort, alloc: Global, locks: &mut LockTable) -> Result<bool, Fail> {
    take(rt, alloc, locks, 1, b'a', Mode::X)?;
    take(rt, alloc, locks, 2, b'c', Mode::S)?;
    take(rt, alloc, locks, 3, b'c', Mode::S)?;
    take(rt, alloc, locks, 4, b'd', Mode::X)?;
    wait(rt, alloc, locks, 3, b'a')?;
    wait(rt, alloc, locks, 2, b'd')?;
    wait(rt, alloc, locks, 4, b'a')?;
    wait(rt, alloc, locks, 1, b'c')?;
    let want = [(1, 2, b'c'), (2, 4, b'd'), (4, 1, b'a')];
    Ok(are_edges(cycle_through(locks, 1), &want))
}

#[test]
fn the_lock_granted_first_is_followed_first(rt: HostRuntime) -> Result<(), Fail> {
    let mut locks = LockTable::new(rt.alloc());
    let found = two_cycles(&rt, rt.alloc(), &mut locks);
    drop(locks);
    assert!(rt; found?);
    Ok(())
}

/// An edge of a cycle of which only the waiter counts.
fn edge_from(rt: &impl Abort, alloc: Global, waiter: u64) -> Result<Edge, AllocError> {
    Ok(Edge {
        waiter,
        holder: waiter,
        lock: record_lock(rt, alloc, waiter, b'a', Mode::X)?,
    })
}

#[test]
fn the_fewest_changes_then_the_asker_then_the_youngest(rt: HostRuntime) -> Result<(), Fail> {
    let alloc = rt.alloc();
    let mut cycle = Edges::new(alloc);
    let mut sizes = Sizes::new(alloc);
    for (txn, changes) in [(5, 2), (7, 2), (9, 2), (8, 4)] {
        cycle.push(edge_from(&rt, alloc, txn)?)?;
        sizes.push(Size { txn, changes })?;
    }
    assert!(rt; !cycle.is_empty());
    assert_eq!(rt; victim(&cycle, &sizes, Some(7)), 7);
    assert_eq!(rt; victim(&cycle, &sizes, Some(8)), 9);
    assert_eq!(rt; victim(&cycle, &sizes, None), 9);
    Ok(())
}
