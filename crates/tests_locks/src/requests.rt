//! Requests, grants and records that appear and go, as a session's user sees them. Memory is ample here.
//! The lock table is tried alone, without an engine; `rooms` shares how a lock is asked for.

ghost use Rattle.std.specs.Prelude.{IsTrue, ◌↔◌, ◌≡◌, true};
ghost use Rattle.lock_rules.specs.Rules.{fits};
ghost use Rattle.lock_table.specs.Keys.{IsShort};

use inno_types::{Bound, Bytes, Edges, Level, Lock, LockKind, Mode, Range, Spot};
use lock_rules::{Case, Place, Rule, fits, rule_for};
use lock_table::{LockTable, Wait};
use std::alloc::{AllocError, Global};
use std::process::Abort;
use std::test::Fail;
use store_api::{Asked, NoMemory};

/// The spot of this key in the clustered index of the first table, or its supremum.
fn spot(alloc: Global, key: Option<u8>) -> Result<Spot, AllocError> {
    let key = match key {
        None => None,
        Some(byte) => Some(Bytes::from_vec(vec![in alloc; byte]?)),
    };
    Ok(Spot { index: 0, key })
}

fn case_of(rule: Rule, mode: Mode, spot: Spot) -> Case {
    Case {
        rule: rule.number(),
        level: Level::RepeatableRead,
        item: 1,
        index: 0,
        range: Range {
            empty: false,
            low: Bound::Open,
            high: Bound::Open,
        },
        mode,
        spot,
        marked: false,
        place: match rule.kind() {
            LockKind::NextKey => Place::Within,
            LockKind::Gap => Place::Past,
            LockKind::Rec | LockKind::Intent => Place::New,
        },
    }
}

/// The lock that a transaction at REPEATABLE READ asks for by this rule.
pub fn due(
    alloc: Global,
    txn: u64,
    rule: Rule,
    mode: Mode,
    key: Option<u8>,
) -> Result<(Lock, Case), AllocError> {
    let lock = Lock {
        txn,
        spot: spot(alloc, key)?,
        kind: rule.kind(),
        mode: rule.mode(mode),
        reason: rule_for(case_of(rule, mode, spot(alloc, key)?)),
    };
    Ok((lock, case_of(rule, mode, spot(alloc, key)?)))
}

fn is_short(key: &Option<Bytes>) -> bool
    ensures { IsTrue result ↔ IsShort key.now }
{
    match key {
        None => true,
        Some(key) => key.len() <= 67,
    }
}

fn assert_fits(rt: &impl Abort, lock: &Lock, case: Case)
    ensures { fits lock.now case ≡ true }
{
    assert!(rt; fits(lock, case));
}

/// Asks for the lock, and says for how many it waits.
pub fn ask(
    rt: &impl Abort,
    table: &mut LockTable,
    (lock, case): (Lock, Case),
) -> Result<usize, NoMemory> {
    assert_fits(rt, &lock, case);
    assert!(rt; lock.reason.rule < Rule::RecordWent.number());
    assert!(rt; is_short(&lock.spot.key));
    assert!(rt; table.granted(lock.txn));
    match table.request(lock) {
        Asked::Granted => Ok(0),
        Asked::Waits { blockers } => Ok(blockers.len()),
        Asked::NoMemory => Err(NoMemory),
    }
}

/// Four transactions ask for one record, the last two to share it: how many each waits for.
fn ask_in_order(
    rt: &impl Abort,
    alloc: Global,
    table: &mut LockTable,
) -> Result<[usize; 4], NoMemory> {
    let seven = Some(7);
    let exclusive = Rule::Changed;
    let shared = Rule::DuplicateCheck;
    Ok([
        ask(rt, table, due(alloc, 1, exclusive, Mode::X, seven)?)?,
        ask(rt, table, due(alloc, 2, exclusive, Mode::X, seven)?)?,
        ask(rt, table, due(alloc, 3, shared, Mode::S, seven)?)?,
        ask(rt, table, due(alloc, 4, shared, Mode::S, seven)?)?,
    ])
}

/// Which of the last three have their locks.
fn granted(table: &LockTable) -> [bool; 3] {
    [table.granted(2), table.granted(3), table.granted(4)]
}

#[test]
fn waiters_are_granted_in_order(rt: HostRuntime) -> Result<(), Fail> {
    let mut table = LockTable::new(rt.alloc());
    let waits = ask_in_order(&rt, rt.alloc(), &mut table);
    table.release_all(1);
    let first = granted(&table);
    table.release_all(2);
    let second = granted(&table);
    drop(table);
    assert_eq!(rt; waits?, [0, 1, 2, 2]);
    assert_eq!(rt; first, [true, false, false]);
    assert_eq!(rt; second, [true, true, true]);
    Ok(())
}

/// Two gap locks at the supremum and a request to insert there: how many each waits for.
fn ask_at_the_supremum(
    rt: &impl Abort,
    alloc: Global,
    table: &mut LockTable,
) -> Result<[usize; 3], NoMemory> {
    let gap = Rule::PastRange;
    let intention = Rule::ToInsert;
    Ok([
        ask(rt, table, due(alloc, 1, gap, Mode::X, None)?)?,
        ask(rt, table, due(alloc, 2, gap, Mode::X, None)?)?,
        ask(rt, table, due(alloc, 2, intention, Mode::X, None)?)?,
    ])
}

/// How many edges lead from the transaction.
fn count_edges(alloc: Global, table: &LockTable, txn: u64) -> Result<usize, NoMemory> {
    let mut edges = Edges::new(alloc);
    table.edges(txn, &mut edges)?;
    Ok(edges.len())
}

#[test]
fn the_supremum_has_a_gap_and_no_record(rt: HostRuntime) -> Result<(), Fail> {
    let mut table = LockTable::new(rt.alloc());
    let waits = ask_at_the_supremum(&rt, rt.alloc(), &mut table);
    let count = count_edges(rt.alloc(), &table, 2);
    drop(table);
    assert_eq!(rt; waits?, [0, 0, 1]);
    assert_eq!(rt; count?, 1);
    Ok(())
}

/// The record of the lock's spot is inserted before the next one: its inserter gets the lock, with room taken for it.
pub fn insert(
    rt: &impl Abort,
    table: &mut LockTable,
    (lock, case): (Lock, Case),
    next: &Spot,
) -> Result<(), NoMemory> {
    table.lock_room(lock.txn, next)?;
    assert_fits(rt, &lock, case);
    assert!(rt; lock.reason.rule < Rule::RecordWent.number());
    assert!(rt; is_short(&lock.spot.key));
    assert!(rt; !table.would_wait(&lock));
    table.grant_new(&lock, next);
    Ok(())
}

/// A record is inserted below the key 7.
fn insert_five(rt: &impl Abort, alloc: Global, table: &mut LockTable) -> Result<(), NoMemory> {
    let seven = spot(alloc, Some(7))?;
    let own = due(alloc, 1, Rule::Inserted, Mode::X, Some(5))?;
    insert(rt, table, own, &seven)
}

/// The record of the key 7, the last one, is removed.
fn remove_seven(rt: &impl Abort, alloc: Global, table: &mut LockTable) -> Result<(), NoMemory> {
    let seven = spot(alloc, Some(7))?;
    let supremum = spot(alloc, None)?;
    assert!(rt; is_short(&supremum.key));
    table.on_remove(None, &seven, &supremum);
    Ok(())
}

/// A scan locks the key 7. How many an insertion below the new record waits for, and one past the last once 7 is gone.
fn follow(rt: &impl Abort, alloc: Global, table: &mut LockTable) -> Result<[usize; 3], NoMemory> {
    let scan = Rule::RangeRecord;
    let intention = Rule::ToInsert;
    let scanned = ask(rt, table, due(alloc, 1, scan, Mode::S, Some(7))?)?;
    insert_five(rt, alloc, table)?;
    let below = ask(rt, table, due(alloc, 2, intention, Mode::X, Some(5))?)?;
    table.withdraw(2);
    remove_seven(rt, alloc, table)?;
    let past = ask(rt, table, due(alloc, 2, intention, Mode::X, None)?)?;
    Ok([scanned, below, past])
}

#[test]
fn locks_follow_the_records(rt: HostRuntime) -> Result<(), Fail> {
    let mut table = LockTable::new(rt.alloc());
    let waits = follow(&rt, rt.alloc(), &mut table);
    drop(table);
    assert_eq!(rt; waits?, [0, 1, 1]);
    Ok(())
}

/// A record is inserted before the supremum, and its insertion is taken back.
fn insert_and_take_back(
    rt: &impl Abort,
    alloc: Global,
    table: &mut LockTable,
) -> Result<(), NoMemory> {
    let five = spot(alloc, Some(5))?;
    let supremum = spot(alloc, None)?;
    let intention = due(alloc, 1, Rule::ToInsert, Mode::X, None)?;
    let own = due(alloc, 1, Rule::Inserted, Mode::X, Some(5))?;
    ask(rt, table, intention)?;
    insert(rt, table, own, &supremum)?;
    assert!(rt; is_short(&supremum.key));
    table.on_remove(Some(1), &five, &supremum);
    Ok(())
}

/// One has the gap before the supremum, and inserts there and takes it back so many times.
fn rounds_beside_a_gap_lock(
    rt: &impl Abort,
    alloc: Global,
    table: &mut LockTable,
    rounds: u32,
) -> Result<(), NoMemory> {
    ask(rt, table, due(alloc, 1, Rule::PastRange, Mode::X, None)?)?;
    for _ in 0..rounds {
        insert_and_take_back(rt, alloc, table)?;
    }
    Ok(())
}

#[test]
fn insertions_that_are_taken_back_leave_no_locks(rt: HostRuntime) -> Result<(), Fail> {
    let mut table = LockTable::new(rt.alloc());
    let rounds = rounds_beside_a_gap_lock(&rt, rt.alloc(), &mut table, 18);
    let locks = table.granted_locks().len();
    drop(table);
    rounds?;
    assert_eq!(rt; locks, 1);
    Ok(())
}

/// How many locks there are after an intention that is granted at once, and after one that has waited for a gap lock.
fn intend_twice(
    rt: &impl Abort,
    alloc: Global,
    table: &mut LockTable,
) -> Result<[usize; 2], NoMemory> {
    let seven = Some(7);
    let intention = Rule::ToInsert;
    ask(rt, table, due(alloc, 1, intention, Mode::X, seven)?)?;
    let at_once = table.granted_locks().len();
    ask(rt, table, due(alloc, 2, Rule::RangeRecord, Mode::X, seven)?)?;
    ask(rt, table, due(alloc, 1, intention, Mode::X, seven)?)?;
    table.release_all(2);
    Ok([at_once, table.granted_locks().len()])
}

#[test]
fn an_intention_is_kept_where_it_had_to_wait(rt: HostRuntime) -> Result<(), Fail> {
    let mut table = LockTable::new(rt.alloc());
    let kept = intend_twice(&rt, rt.alloc(), &mut table);
    drop(table);
    assert_eq!(rt; kept?, [0, 1]);
    Ok(())
}

/// How it stands with requests for the key 7: while one waits, once it is taken back, while it waits again, once it is
/// served, and of another, once the record has gone.
fn ends_of_waits(
    rt: &impl Abort,
    alloc: Global,
    table: &mut LockTable,
) -> Result<[Wait; 5], NoMemory> {
    let (second, _) = due(alloc, 2, Rule::Changed, Mode::X, Some(7))?;
    let (third, _) = due(alloc, 3, Rule::Changed, Mode::X, Some(7))?;
    ask(rt, table, due(alloc, 1, Rule::Changed, Mode::X, Some(7))?)?;
    ask(rt, table, due(alloc, 2, Rule::Changed, Mode::X, Some(7))?)?;
    let waits = table.wait(&second);
    table.withdraw(2);
    let withdrawn = table.wait(&second);
    ask(rt, table, due(alloc, 2, Rule::Changed, Mode::X, Some(7))?)?;
    let again = table.wait(&second);
    table.release_all(1);
    let served = table.wait(&second);
    ask(rt, table, due(alloc, 3, Rule::Changed, Mode::X, Some(7))?)?;
    remove_seven(rt, alloc, table)?;
    Ok([waits, withdrawn, again, served, table.wait(&third)])
}

#[test]
fn each_wait_is_told_how_it_ended(rt: HostRuntime) -> Result<(), Fail> {
    let mut table = LockTable::new(rt.alloc());
    let ends = ends_of_waits(&rt, rt.alloc(), &mut table);
    drop(table);
    let want = [
        Wait::Lasts,
        Wait::Withdrawn,
        Wait::Lasts,
        Wait::Served,
        Wait::RecordGone,
    ];
    assert_eq!(rt; ends?, want);
    Ok(())
}
