//! How long commits may wait for the flush that serves them: for each session a count of steps. Nothing here waits.
//! `lingering` spends and renews it, and `turns` tells it how long a flush took.

ghost use Rattle.std.specs.Prelude.{◌≡◌, ◌≢◌, ℕ, ◌+◌, ◌<◌, ◌≤◌, slice_index};

use std::marker::Model;
use store_api::MOST_SESSIONS;

/// How many steps a commit lingers at most, and one more, by which it is flushed.
pub(crate) const LONGEST: u8 = 251;

/// A flush that takes fewer microseconds is not waited for: one more costs less than the waiting.
const WORTH_A_WAIT: u64 = 20;

/// By session: within how many of its steps its commit is flushed at the latest. At 0 it is flushed already, or there is none.
/// The longer flushes take, the longer commits wait: by the shorter one of the last two, so that one flush amid which the
/// thread was put aside counts for nothing.
#[derive(Drop)]
pub(crate) struct Patience {
    left: [u8; MOST_SESSIONS],
    /// Whether the step under way flushes.
    flushes: bool,
    /// How many microseconds the last flush took, and the one before it.
    last: u64,
    before: u64,
}

impl Model for Patience {
    ghost use Rattle.std.specs.Prelude.{List, ℕ};
    ghost use Rattle.std.specs.Coded.{coded_list, coded_ℕ};

    ghost Value = { List ℕ };

    ghost coded = { coded_list coded_ℕ };

    ghost view = { λ p. p.left };
}

impl Patience {
    /// No commit waits.
    pub(crate) fn new() -> Self
        ensures { (y : ℕ) → slice_index result y ≡ 0 }
    {
        Patience {
            left: [0; MOST_SESSIONS],
            flushes: false,
            last: 0,
            before: 0,
        }
    }

    /// Hears how many microseconds the last step took: where it flushed, that is what a flush takes.
    pub(crate) fn hear(&mut self, microseconds: u64)
        ensures { self.new ≡ self.old }
    {
        if self.flushes {
            self.flushes = false;
            self.before = self.last;
            self.last = microseconds;
        }
    }

    /// Within how many of its steps a commit is flushed that begins to wait now: about one for each microsecond of a flush.
    fn longest(&self) -> u8
        ensures { (0 < result) × (result ≤ LONGEST) }
    {
        let flush = self.last.min(self.before);
        if flush < WORTH_A_WAIT {
            1
        } else {
            flush.min(LONGEST as u64) as u8
        }
    }

    /// What is left to the session.
    pub(crate) fn of(&self, s: u32) -> u8
        ensures { result ≡ slice_index self.now s }
    {
        let place = s as usize;
        if place < MOST_SESSIONS {
            self.left[place]
        } else {
            0
        }
    }

    /// A step of what is left to the session is spent.
    pub(crate) fn spend(&mut self, s: u32)
        requires { 0 < slice_index self.old s }
        ensures own { slice_index self.new s + 1 ≡ slice_index self.old s }
        ensures others { (y : ℕ) → y ≢ s → slice_index self.new y ≡ slice_index self.old y }
    {
        let place = s as usize;
        if place < MOST_SESSIONS {
            self.left[place] -= 1;
        }
    }

    /// A commit of the session begins to wait.
    pub(crate) fn renew(&mut self, s: u32)
        ensures own { s < MOST_SESSIONS → (0 < slice_index self.new s) × (slice_index self.new s ≤ LONGEST) }
        ensures others { (y : ℕ) → y ≢ s → slice_index self.new y ≡ slice_index self.old y }
    {
        let place = s as usize;
        if place < MOST_SESSIONS {
            self.left[place] = self.longest();
        }
    }

    /// Every commit is flushed, by the step under way.
    pub(crate) fn end_all(&mut self)
        ensures { (y : ℕ) → slice_index self.new y ≡ 0 }
    {
        self.left = [0; MOST_SESSIONS];
        self.flushes = true;
    }
}
