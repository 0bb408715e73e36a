//! A write of the log that waits for its sync, with the last group that it holds.
//! The first half of a flush makes it, and only the second half takes it.

use std::marker::Model;

/// So many blocks from this one on were written; the last group in them has this LSN.
#[derive(Drop)]
pub struct Written {
    pub(crate) block: u64,
    pub(crate) count: u64,
    pub(crate) last: u64,
}

impl Model for Written {
    ghost use Rattle.redo_log.specs.Halves.{WrittenView};

    ghost Value = { WrittenView };

    ghost view = { λ w. record { block = w.block; count = w.count; last = w.last } };
}

impl Written {
    ghost use Rattle.std.specs.Prelude.{◌≡◌};

    /// The LSN up to which all groups are flushed after the second half.
    pub fn last(&self) -> u64
        ensures { result ≡ self.now.last }
    {
        self.last
    }
}
