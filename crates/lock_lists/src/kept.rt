//! A lock with its key in place: it is copied and moved to other spots without memory.
//! Contracts see it as the `Lock` that it is.

ghost use Rattle.std.specs.Prelude.{◌≡◌, ◌≤◌, [], length, vec_capacity, IfOk, IfSome, option_map};
ghost use Rattle.lock_rules.specs.Spots as spots;
ghost use Rattle.lock_rules.specs.Conflicts as spec;
ghost use Rattle.inno_types.specs.declared.lock.LockKind.TheVariants.{Gap};
ghost use Rattle.lock_lists.specs.Keys.{IsShort};
ghost use Rattle.lock_lists.specs.Places.{sum_of, sum_at};

use arrayvec::ArrayVec;
use inno_types::{Bytes, Lock, LockKind, Mode, Reason, Spot};
use lock_rules::{
    is_shared, kind_at, kind_covers, kinds_conflict, same_kind, same_mode, same_reason,
};
use std::alloc::{AllocError, Global};
use std::marker::Model;
use store_api::MOST_BYTES_OF_KEY;
use sum64::fnv;

/// A granted lock or a request, kept with room for the longest key.
#[derive(Drop)]
pub struct KeptLock {
    txn: u64,
    index: u32,
    key: Option<ArrayVec<u8, MOST_BYTES_OF_KEY>>,
    kind: LockKind,
    mode: Mode,
    reason: Reason,
}

impl Model for KeptLock {
    ghost use Rattle.std.specs.Prelude.{option_map};
    ghost use Rattle.inno_types.specs.declared.lock.Lock.{Lock};
    ghost use Rattle.lock_lists.specs.Keys.{IsShort};

    ghost Value = { Lock };

    ghost view = { λ l. record { txn = l.txn; spot = record { index = l.index; key = option_map (λ k. k.items) l.key }; kind = l.kind; mode = l.mode; reason = l.reason } };

    ghost invariant = { λ l. IsShort (option_map (λ k. k.items) l.key) };
}

fn kept_key(key: &Option<Bytes>) -> Option<ArrayVec<u8, MOST_BYTES_OF_KEY>>
    requires { IsShort key.now }
    ensures { option_map (λ k. k.items) result ≡ key.now }
{
    match key {
        None => None,
        Some(key) => {
            let mut kept = ArrayVec::new();
            let _ = kept.try_extend_from_slice(key.as_slice());
            Some(kept)
        }
    }
}

impl KeptLock {
    /// The same lock, kept.
    pub fn new(lock: &Lock) -> Self
        requires { IsShort lock.now.spot.key }
        ensures { result ≡ lock.now }
    {
        KeptLock {
            txn: lock.txn,
            index: lock.spot.index,
            key: kept_key(&lock.spot.key),
            kind: lock.kind,
            mode: lock.mode,
            reason: lock.reason,
        }
    }

    /// The same lock, for which this buffer holds the key.
    pub fn lock_in(&self, buffer: Vec<u8>) -> Lock
        requires empty { buffer.items ≡ [] }
        requires holds { 67 ≤ vec_capacity buffer }
        ensures same { result ≡ self.now }
        ensures short { IsShort self.now.spot.key }
    {
        Lock {
            txn: self.txn,
            spot: Spot {
                index: self.index,
                key: key_in(&self.key, buffer),
            },
            kind: self.kind,
            mode: self.mode,
            reason: self.reason,
        }
    }

    /// The same lock.
    pub fn to_lock(&self, alloc: Global) -> Result<Lock, AllocError>
        ensures { IfOk result (λ lock. lock ≡ self.now) }
    {
        let buffer = Vec::with_capacity(alloc, MOST_BYTES_OF_KEY)?;
        Ok(self.lock_in(buffer))
    }

    pub fn txn(&self) -> u64
        ensures { result ≡ self.now.txn }
    {
        self.txn
    }

    pub fn kind(&self) -> LockKind
        ensures { result ≡ self.now.kind }
    {
        self.kind
    }

    pub fn reason(&self) -> Reason
        ensures { result ≡ self.now.reason }
    {
        self.reason
    }

    /// A number that two locks of one spot share.
    pub fn sum(&self) -> u64
        ensures { result ≡ sum_of self.now.spot }
    {
        match &self.key {
            None => u64::from(self.index),
            Some(key) => fnv(key.as_slice()) ^ u64::from(self.index),
        }
    }

    /// Whether it is on this spot.
    pub fn is_at(&self, spot: &Spot) -> bool
        ensures { result ≡ spots.same_spot self.now.spot spot.now }
    {
        self.index == spot.index
            && match (&self.key, &spot.key) {
                (None, None) => true,
                (Some(key), Some(other)) => key.as_slice() == other.as_slice(),
                _ => false,
            }
    }

    fn is_beside(&self, other: &KeptLock) -> bool
        ensures { result ≡ spots.same_spot self.now.spot other.now.spot }
    {
        self.index == other.index
            && match (&self.key, &other.key) {
                (None, None) => true,
                (Some(key), Some(other)) => key.as_slice() == other.as_slice(),
                _ => false,
            }
    }

    /// What it locks: at the supremum a next-key lock is a gap lock.
    fn kind_here(&self) -> LockKind
        ensures { result ≡ spec.kind_of self.now }
    {
        kind_at(self.key.is_some(), self.kind)
    }

    /// Whether the request may not be granted beside this lock, or behind this request.
    pub fn conflicts(&self, asked: &KeptLock) -> bool
        ensures { result ≡ spec.conflicts self.now asked.now }
    {
        self.txn != asked.txn
            && self.is_beside(asked)
            && kinds_conflict(self.kind_here(), self.mode, asked.kind_here(), asked.mode)
    }

    /// Whether its transaction need not ask for this lock.
    pub fn covers(&self, asked: &KeptLock) -> bool
        ensures { result ≡ spec.covers self.now asked.now }
    {
        self.txn == asked.txn
            && self.is_beside(asked)
            && kind_covers(self.kind_here(), asked.kind_here())
            && (is_shared(asked.mode) || !is_shared(self.mode))
    }

    /// The same of a lock that is not kept.
    pub fn covers_lock(&self, asked: &Lock) -> bool
        ensures { result ≡ spec.covers self.now asked.now }
    {
        self.txn == asked.txn
            && self.is_at(&asked.spot)
            && kind_covers(
                self.kind_here(),
                kind_at(asked.spot.key.is_some(), asked.kind),
            )
            && (is_shared(asked.mode) || !is_shared(self.mode))
    }

    /// Whether it is this lock, by this reason.
    pub fn is_same(&self, lock: &Lock) -> bool
        ensures { result ≡ spec.same_lock self.now lock.now }
    {
        self.txn == lock.txn
            && self.is_at(&lock.spot)
            && same_kind(self.kind, lock.kind)
            && same_mode(self.mode, lock.mode)
            && same_reason(self.reason, lock.reason)
    }

    /// The lock as a gap lock on another spot, by the rule of this number.
    pub fn as_gap(&self, rule: u8, spot: &Spot) -> KeptLock
        requires { IsShort spot.now.key }
        ensures { result ≡ record { txn = self.now.txn; spot = spot.now; kind = Gap; mode = self.now.mode; reason = record { rule = rule; item = self.now.reason.item; level = self.now.reason.level } } }
    {
        KeptLock {
            txn: self.txn,
            index: spot.index,
            key: kept_key(&spot.key),
            kind: LockKind::Gap,
            mode: self.mode,
            reason: Reason {
                rule,
                ..self.reason
            },
        }
    }
}

/// The number that locks of this spot share.
pub fn sum_of(spot: &Spot) -> u64
    ensures { result ≡ sum_of spot.now }
{
    match &spot.key {
        None => u64::from(spot.index),
        Some(key) => fnv(key.as_slice()) ^ u64::from(spot.index),
    }
}

/// The same key, in this buffer.
fn key_in(key: &Option<ArrayVec<u8, MOST_BYTES_OF_KEY>>, mut buffer: Vec<u8>) -> Option<Bytes>
    requires empty { buffer.items ≡ [] }
    requires holds { 67 ≤ vec_capacity buffer }
    requires short { IsShort (option_map (λ k. k.items) key.now) }
    ensures { result ≡ option_map (λ k. k.items) key.now }
{
    match key {
        None => None,
        Some(key) => {
            let _ = buffer.extend_from_slice(key.as_slice());
            Some(Bytes::from_vec(buffer))
        }
    }
}
