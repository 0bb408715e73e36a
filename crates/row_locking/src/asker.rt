//! On whose behalf a search locks, and the lock that it asks for by a rule.
//! The steps in `walk` and `visit` ask by it; whoever makes a search says who asks.

ghost use Rattle.std.specs.Prelude.{◌≡◌};
ghost use Rattle.row_locking.specs.Rules.{lock_by};

use inno_types::{Bytes, Level, Lock, Mode, Reason, Spot};
use lock_rules::Rule;

/// Who searches: a session by its number, its open transaction and that one's level, and the item of the session. The
/// mode is shared for FOR SHARE and for a SELECT at SERIALIZABLE, else exclusive.
#[derive(Clone, Copy)]
pub struct Asker {
    pub session: u32,
    pub txn: u64,
    pub level: Level,
    pub item: u32,
    pub mode: Mode,
}

impl Asker {
    /// The lock that the rule gives at this spot.
    pub fn lock(&self, rule: Rule, index: u32, key: Option<Bytes>) -> Lock
        ensures { result ≡ lock_by self.now rule (record { index = index; key = key }) }
    {
        Lock {
            txn: self.txn,
            spot: Spot { index, key },
            kind: rule.kind(),
            mode: rule.mode(self.mode),
            reason: Reason {
                rule: rule.number(),
                item: self.item,
                level: self.level,
            },
        }
    }
}
