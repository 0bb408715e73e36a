//! Locks whose memory is taken before they are asked for, and the question whether a request would wait.
//! The lock table is tried alone, without an engine.

ghost use Rattle.lock_table.specs.Keys.{IsShort};

use crate::requests::{ask, due, insert};
use inno_types::{Lock, Mode, Spot};
use lock_rules::Rule;
use lock_table::LockTable;
use std::alloc::{AllocError, Global};
use std::process::Abort;
use std::test::Fail;
use store_api::NoMemory;

fn is_short(rt: &impl Abort, spot: &Spot)
    ensures { IsShort spot.now.key }
{
    match &spot.key {
        None => (),
        Some(key) => assert!(rt; key.len() <= 67),
    }
}

/// Whether a transaction would wait for the record of the key, to change it.
fn would_wait(
    rt: &impl Abort,
    alloc: Global,
    table: &LockTable,
    (txn, key): (u64, u8),
) -> Result<bool, AllocError> {
    let (lock, _) = due(alloc, txn, Rule::Changed, Mode::X, Some(key))?;
    is_short(rt, &lock.spot);
    Ok(table.would_wait(&lock))
}

/// One has the record 7: who would wait for it, who for 8, and for how many one waits who asks after all.
fn look_and_ask(
    rt: &impl Abort,
    alloc: Global,
    table: &mut LockTable,
) -> Result<([bool; 3], usize), NoMemory> {
    ask(rt, table, due(alloc, 1, Rule::Changed, Mode::X, Some(7))?)?;
    let would = [
        would_wait(rt, alloc, table, (1, 7))?,
        would_wait(rt, alloc, table, (2, 7))?,
        would_wait(rt, alloc, table, (2, 8))?,
    ];
    let waits = ask(rt, table, due(alloc, 2, Rule::Changed, Mode::X, Some(7))?)?;
    Ok((would, waits))
}

#[test]
fn a_question_is_no_request(rt: HostRuntime) -> Result<(), Fail> {
    let mut table = LockTable::new(rt.alloc());
    let answers = look_and_ask(&rt, rt.alloc(), &mut table);
    drop(table);
    let (would, waits) = answers?;
    assert_eq!(rt; would, [false, true, false]);
    assert_eq!(rt; waits, 1);
    Ok(())
}

/// One has the record 9 with the gap below it, takes room, and inserts below: its intention waits for nobody, and takes no
/// memory, nor do the copy of the gap lock and the lock of the new record.
fn insert_with_room(
    rt: &impl Abort,
    alloc: Global,
    table: &mut LockTable,
) -> Result<usize, NoMemory> {
    let (next, _) = due(alloc, 1, Rule::RangeRecord, Mode::S, Some(9))?;
    ask(
        rt,
        table,
        due(alloc, 1, Rule::RangeRecord, Mode::S, Some(9))?,
    )?;
    let intention = due(alloc, 1, Rule::ToInsert, Mode::X, Some(9))?;
    let own = due(alloc, 1, Rule::Inserted, Mode::X, Some(5))?;
    let waits = ask(rt, table, intention)?;
    insert(rt, table, own, &next.spot)?;
    Ok(waits)
}

#[test]
fn a_new_record_has_its_locks(rt: HostRuntime) -> Result<(), Fail> {
    let mut table = LockTable::new(rt.alloc());
    let inserted = insert_with_room(&rt, rt.alloc(), &mut table);
    let locks = table.granted_locks().len();
    drop(table);
    assert_eq!(rt; inserted?, 0);
    assert_eq!(rt; locks, 3);
    Ok(())
}
