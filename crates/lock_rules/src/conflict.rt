//! Conflicts of locks on one spot, and which lock makes a request needless.
//! Pure functions on locks; the kinds alone are public for tables that keep locks in another form.

ghost use Rattle.std.specs.Prelude.{◌≡◌, Option, is_some};
ghost use Rattle.lock_rules.specs.Kinds as kinds;
ghost use Rattle.lock_rules.specs.Spots as spots;
ghost use Rattle.lock_rules.specs.Conflicts as spec;

use inno_types::{Bytes, Level, Lock, LockKind, Mode, Reason, Spot};

/// Whether the lock locks the record at its spot.
pub fn locks_record(kind: LockKind) -> bool
    ensures { result ≡ kinds.locks_record kind }
{
    match kind {
        LockKind::Rec | LockKind::NextKey => true,
        LockKind::Gap | LockKind::Intent => false,
    }
}

/// Whether the lock keeps insertions out of the gap before its spot.
pub fn locks_gap(kind: LockKind) -> bool
    ensures { result ≡ kinds.locks_gap kind }
{
    match kind {
        LockKind::Gap | LockKind::NextKey => true,
        LockKind::Rec | LockKind::Intent => false,
    }
}

pub fn is_shared(mode: Mode) -> bool
    ensures { result ≡ kinds.is_shared mode }
{
    match mode {
        Mode::S => true,
        Mode::X => false,
    }
}

/// Whether the level is REPEATABLE READ or SERIALIZABLE, which lock gaps.
pub fn is_upper(level: Level) -> bool
    ensures { result ≡ kinds.is_upper level }
{
    match level {
        Level::RepeatableRead | Level::Serializable => true,
        Level::ReadUncommitted | Level::ReadCommitted => false,
    }
}

/// What a lock of this kind locks: at the supremum, which is no record, a next-key lock is a gap lock.
pub fn kind_at(has_record: bool, kind: LockKind) -> LockKind
    ensures { result ≡ spec.kind_at has_record kind }
{
    match kind {
        LockKind::NextKey if !has_record => LockKind::Gap,
        _ => kind,
    }
}

/// Whether a lock held, or asked for earlier, keeps another transaction's lock on the same spot from being granted.
pub fn kinds_conflict(held: LockKind, mode: Mode, asked: LockKind, asked_mode: Mode) -> bool
    ensures { result ≡ spec.kinds_conflict held mode asked asked_mode }
{
    match asked {
        LockKind::Rec | LockKind::NextKey => {
            locks_record(held) && !(is_shared(mode) && is_shared(asked_mode))
        }
        LockKind::Gap => false,
        LockKind::Intent => locks_gap(held),
    }
}

/// Whether a lock of one kind covers another of the same transaction on the same spot. An insert intention is always
/// asked for.
pub fn kind_covers(held: LockKind, asked: LockKind) -> bool
    ensures { result ≡ spec.kind_covers held asked }
{
    match asked {
        LockKind::Rec => locks_record(held),
        LockKind::Gap => locks_gap(held),
        LockKind::NextKey => locks_record(held) && locks_gap(held),
        LockKind::Intent => false,
    }
}

fn same_key(key: &Option<Bytes>, other: &Option<Bytes>) -> bool
    ensures { result ≡ spots.same_key key.now other.now }
{
    match (key, other) {
        (None, None) => true,
        (Some(key), Some(other)) => key.as_slice() == other.as_slice(),
        _ => false,
    }
}

pub fn same_spot(spot: &Spot, other: &Spot) -> bool
    ensures { result ≡ spots.same_spot spot.now other.now }
{
    spot.index == other.index && same_key(&spot.key, &other.key)
}

fn kind_of(lock: &Lock) -> LockKind
    ensures { result ≡ spec.kind_of lock.now }
{
    kind_at(lock.spot.key.is_some(), lock.kind)
}

/// Whether `asked` may not be granted beside the other transaction's `held`, or behind it in the queue.
/// MySQL 8.0 Reference Manual, "InnoDB Locking".
pub fn conflicts(held: &Lock, asked: &Lock) -> bool
    ensures { result ≡ spec.conflicts held.now asked.now }
{
    held.txn != asked.txn
        && same_spot(&held.spot, &asked.spot)
        && kinds_conflict(kind_of(held), held.mode, kind_of(asked), asked.mode)
}

/// Whether the transaction of `held` need not ask for `asked`: one lock covers it, not two together.
pub fn covers(held: &Lock, asked: &Lock) -> bool
    ensures { result ≡ spec.covers held.now asked.now }
{
    held.txn == asked.txn
        && same_spot(&held.spot, &asked.spot)
        && kind_covers(kind_of(held), kind_of(asked))
        && (is_shared(asked.mode) || !is_shared(held.mode))
}

pub fn same_kind(kind: LockKind, other: LockKind) -> bool
    ensures { result ≡ kinds.same_kind kind other }
{
    match kind {
        LockKind::Rec => locks_record(other) && !locks_gap(other),
        LockKind::Gap => locks_gap(other) && !locks_record(other),
        LockKind::NextKey => locks_record(other) && locks_gap(other),
        LockKind::Intent => !locks_record(other) && !locks_gap(other),
    }
}

pub fn same_mode(mode: Mode, other: Mode) -> bool
    ensures { result ≡ kinds.same_mode mode other }
{
    is_shared(mode) == is_shared(other)
}

pub fn same_reason(reason: Reason, other: Reason) -> bool
    ensures { result ≡ spec.same_reason reason other }
{
    reason.rule == other.rule && reason.item == other.item && reason.level == other.level
}

/// Whether the two are one and the same lock, by one and the same reason.
pub fn same_lock(lock: &Lock, other: &Lock) -> bool
    ensures { result ≡ spec.same_lock lock.now other.now }
{
    lock.txn == other.txn
        && same_spot(&lock.spot, &other.spot)
        && same_kind(lock.kind, other.kind)
        && same_mode(lock.mode, other.mode)
        && same_reason(lock.reason, other.reason)
}
