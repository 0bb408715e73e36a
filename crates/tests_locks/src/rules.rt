//! The table of conflicts, and the numbers of the rules, as the documentation has them.
//! Only `lock_rules` is tried: no lock is kept.

use inno_types::{Bound, Bytes, Level, Lock, LockKind, Mode, Range, Reason, Spot};
use lock_rules::{Case, Place, Rule, conflicts, fits, rule_for};
use std::alloc::{AllocError, Global};
use std::test::Fail;

/// The locks that another transaction holds, from left to right.
const HELD: [(LockKind, Mode); 7] = [
    (LockKind::Rec, Mode::S),
    (LockKind::Rec, Mode::X),
    (LockKind::Gap, Mode::S),
    (LockKind::Gap, Mode::X),
    (LockKind::NextKey, Mode::S),
    (LockKind::NextKey, Mode::X),
    (LockKind::Intent, Mode::X),
];

fn lock_on(key: Option<Bytes>, txn: u64, kind: LockKind, mode: Mode) -> Lock {
    Lock {
        txn,
        spot: Spot { index: 8, key },
        kind,
        mode,
        reason: Reason {
            rule: 4,
            item: 1,
            level: Level::RepeatableRead,
        },
    }
}

fn on_record(alloc: Global, txn: u64, kind: LockKind, mode: Mode) -> Result<Lock, AllocError> {
    let key = Bytes::from_vec(vec![in alloc; 1, 7]?);
    Ok(lock_on(Some(key), txn, kind, mode))
}

/// Which of the locks held on a record conflict with this one, a digit each.
fn on_a_record(alloc: Global, kind: LockKind, mode: Mode) -> Result<u32, AllocError> {
    let asked = on_record(alloc, 2, kind, mode)?;
    let mut digits = 0;
    for (held, held_mode) in HELD {
        let held = on_record(alloc, 1, held, held_mode)?;
        digits = (digits << 1) | u32::from(conflicts(&held, &asked));
    }
    Ok(digits)
}

/// The same at the supremum.
fn at_the_supremum(kind: LockKind, mode: Mode) -> u32 {
    let asked = lock_on(None, 2, kind, mode);
    let mut digits = 0;
    for (held, held_mode) in HELD {
        let held = lock_on(None, 1, held, held_mode);
        digits = (digits << 1) | u32::from(conflicts(&held, &asked));
    }
    digits
}

#[test]
fn conflicts_are_those_of_the_table(rt: HostRuntime) -> Result<(), Fail> {
    let alloc = rt.alloc();
    assert_eq!(rt; on_a_record(alloc, LockKind::Rec, Mode::S)?, 0b0100010);
    assert_eq!(rt; on_a_record(alloc, LockKind::Rec, Mode::X)?, 0b1100110);
    assert_eq!(rt; on_a_record(alloc, LockKind::NextKey, Mode::S)?, 0b0100010);
    assert_eq!(rt; on_a_record(alloc, LockKind::NextKey, Mode::X)?, 0b1100110);
    assert_eq!(rt; on_a_record(alloc, LockKind::Gap, Mode::X)?, 0);
    assert_eq!(rt; on_a_record(alloc, LockKind::Intent, Mode::X)?, 0b0011110);
    Ok(())
}

#[test]
fn a_next_key_lock_at_the_supremum_is_a_gap_lock(rt: HostRuntime) {
    assert_eq!(rt; at_the_supremum(LockKind::NextKey, Mode::X), 0);
    assert_eq!(rt; at_the_supremum(LockKind::Intent, Mode::X), 0b0011110);
}

#[test]
fn rules_have_the_numbers_of_the_documentation(rt: HostRuntime) {
    assert_eq!(rt; Rule::UniqueFound.number(), 1);
    assert_eq!(rt; Rule::ToInsert.number(), 7);
    assert_eq!(rt; Rule::from_number(13), Some(Rule::CopiedOnInsert));
    assert_eq!(rt; Rule::from_number(14), None);
}

/// A range scan of the first secondary index, for the values from 5 on and below 7, at the entry of these two bytes.
fn scan(alloc: Global, value: u8, primary: u8, place: Place) -> Result<Case, AllocError> {
    let low = Bytes::from_vec(vec![in alloc; 5]?);
    let high = Bytes::from_vec(vec![in alloc; 7]?);
    let key = Bytes::from_vec(vec![in alloc; value, primary]?);
    Ok(Case {
        rule: Rule::RangeRecord.number(),
        level: Level::Serializable,
        item: 1,
        index: 1,
        range: Range {
            empty: false,
            low: Bound::With(low),
            high: Bound::Without(high),
        },
        mode: Mode::S,
        spot: Spot {
            index: 1,
            key: Some(key),
        },
        marked: true,
        place,
    })
}

/// Whether a next-key lock on the entry is one of the scan.
fn is_locked(alloc: Global, value: u8, primary: u8) -> Result<bool, AllocError> {
    let lock = Lock {
        txn: 1,
        spot: scan(alloc, value, primary, Place::Within)?.spot,
        kind: LockKind::NextKey,
        mode: Mode::S,
        reason: rule_for(scan(alloc, value, primary, Place::Within)?),
    };
    Ok(fits(&lock, scan(alloc, value, primary, Place::Within)?))
}

#[test]
fn a_bound_meets_as_many_bytes_as_it_has(rt: HostRuntime) -> Result<(), Fail> {
    let alloc = rt.alloc();
    assert!(rt; !is_locked(alloc, 4, 9)?);
    assert!(rt; is_locked(alloc, 5, 0)?);
    assert!(rt; is_locked(alloc, 6, 9)?);
    assert!(rt; !is_locked(alloc, 7, 0)?);
    Ok(())
}
