//! What is looked for among granted locks. All that is found by one question stands on one spot.
//! The granted locks are asked with it; nothing is kept here.

ghost use Rattle.std.specs.Prelude.{◌≡◌};
ghost use Rattle.lock_lists.specs.Looking.{passes, spot_of};
ghost use Rattle.lock_lists.specs.Places.{sum_of, holds_at};

use crate::kept::{KeptLock, sum_of};
use inno_types::{Lock, Spot};
use lock_rules::locks_gap;

/// The locks that are looked for.
#[derive(Clone, Copy)]
pub enum Sought<'a> {
    /// Those that keep this one from being granted.
    Blocking(&'a KeptLock),
    /// Those that make this one needless.
    Covering(&'a KeptLock),
    /// The same of a lock that is not kept.
    CoveringOne(&'a Lock),
    /// This one, by this reason.
    Same(&'a Lock),
    /// Those on this spot.
    At(&'a Spot),
    /// Those of the transaction, of the gap before this spot.
    OwnGap(u64, &'a Spot),
}

impl Sought<'_> {
    /// Whether this is one of them.
    pub fn passes(self, lock: &KeptLock) -> bool
        ensures { result ≡ passes self.entry lock.now }
    {
        match self {
            Sought::Blocking(asked) => lock.conflicts(asked),
            Sought::Covering(asked) => lock.covers(asked),
            Sought::CoveringOne(asked) => lock.covers_lock(asked),
            Sought::Same(other) => lock.is_same(other),
            Sought::At(spot) => lock.is_at(spot),
            Sought::OwnGap(txn, spot) => {
                lock.txn() == txn && lock.is_at(spot) && locks_gap(lock.kind())
            }
        }
    }

    /// Whether there is one of them at the place.
    pub fn stands_at(self, place: &Option<KeptLock>) -> bool
        ensures { result ≡ holds_at (passes self.entry) place.now }
    {
        match place {
            Some(lock) => self.passes(lock),
            None => false,
        }
    }

    /// The number that locks of their spot share.
    pub fn sum(self) -> u64
        ensures { result ≡ sum_of (spot_of self.entry) }
    {
        match self {
            Sought::Blocking(asked) | Sought::Covering(asked) => asked.sum(),
            Sought::CoveringOne(asked) | Sought::Same(asked) => sum_of(&asked.spot),
            Sought::At(spot) | Sought::OwnGap(_, spot) => sum_of(spot),
        }
    }
}
