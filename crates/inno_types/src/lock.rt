//! Locks and what is said of them: where, how strong, by which rule, and who waits for whom.
//! The lock table and the history write them; nothing here decides.

ghost use Rattle.std.specs.Prelude.{◌≡◌, IfOk};

use crate::listed::Bytes;
use std::alloc::AllocError;

/// The isolation level of a transaction.
#[derive(Clone, Copy, Debug, PartialEq, Eq)]
pub enum Level {
    ReadUncommitted,
    ReadCommitted,
    RepeatableRead,
    Serializable,
}

#[derive(Clone, Copy)]
pub enum Mode {
    S,
    X,
}

#[derive(Clone, Copy)]
pub enum LockKind {
    Rec,
    Gap,
    NextKey,
    Intent,
}

/// A place in an index: a record, or with no key the supremum behind the last record.
#[derive(Clone, Drop)]
pub struct Spot {
    pub index: u32,
    pub key: Option<Bytes>,
}

/// By which rule, item and level a lock was taken.
#[derive(Clone, Copy)]
pub struct Reason {
    pub rule: u8,
    pub item: u32,
    pub level: Level,
}

/// A lock of a transaction, which is named by its number in order of begin, from 1.
#[derive(Clone, Drop)]
pub struct Lock {
    pub txn: u64,
    pub spot: Spot,
    pub kind: LockKind,
    pub mode: Mode,
    pub reason: Reason,
}

/// A transaction that waits, and the lock of another for which it waits.
#[derive(Drop)]
pub struct Edge {
    pub waiter: u64,
    pub holder: u64,
    pub lock: Lock,
}

impl Lock {
    /// The same lock.
    pub fn copied(&self) -> Result<Self, AllocError>
        ensures { IfOk result (λ lock. lock ≡ self.now) }
    {
        self.clone()
    }
}

impl Edge {
    /// The same edge.
    pub fn copied(&self) -> Result<Self, AllocError>
        ensures { IfOk result (λ edge. edge ≡ self.now) }
    {
        Ok(Edge {
            waiter: self.waiter,
            holder: self.holder,
            lock: self.lock.copied()?,
        })
    }
}
