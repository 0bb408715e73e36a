//! The files of a database as areas of bytes: what a call does to them, and what a crash may leave.
//! Everything that writes to the files goes through this trait.

ghost use Rattle.std.specs.Prelude.{◌≡◌, ◌≤◌, ℕ, length, take, drop, Some, IfOk, is_ok};
ghost use Rattle.store_api.specs.Areas.{State, IsImage, seen_image, contents_of, Looked, Wrote, Synced, Within};
ghost use Rattle.store_api.specs.Causes.{HasCause};
ghost use Rattle.store_api.specs.Past.{Past, Goes, Now};

use crate::outside::Failed;

/// A part of the files: the redo log, the doublewrite copies, or the pages.
#[derive(Clone, Copy, Debug, PartialEq, Eq)]
pub enum Area {
    Log,
    Double,
    Pages,
}

/// The files of a database, with a clock that counts the calls. A disk may keep to itself what its areas hold;
/// clauses then say nothing of their content.
pub trait Disk {
    /// The clock, the count of faults, and the states so far.
    ghost past: { Self → Past };

    fn len(&mut self, area: Area) -> Result<u64, Failed>
        ensures length { IfOk result (λ n. Now (λ s. n ≡ length (contents_of area s).seen) (past self.old)) }
        ensures goes { Goes (Within area (Looked (is_ok result))) (past self.old) (past self.new) }
        ensures cause { HasCause (past self.old).faults (past self.new).faults result };

    /// The bytes from `at` on, fewer than asked only at the end.
    fn read(&mut self, area: Area, at: u64, into: &mut [u8]) -> Result<usize, Failed>
        ensures count { IfOk result (λ n. n ≤ length into.new) }
        ensures bytes { IfOk result (λ n. Now (λ s. take n into.new ≡ take (length into.new) (drop at (contents_of area s).seen)) (past self.old)) }
        ensures goes { Goes (Within area (Looked (is_ok result))) (past self.old) (past self.new) }
        ensures cause { HasCause (past self.old).faults (past self.new).faults result };

    /// Writes over what is there, and past the end. Until a sync a crash may leave any bytes there.
    fn write(&mut self, area: Area, at: u64, bytes: &[u8]) -> Result<(), Failed>
        ensures goes { Goes (Within area (Wrote at bytes.now (is_ok result))) (past self.old) (past self.new) }
        ensures cause { HasCause (past self.old).faults (past self.new).faults result };

    /// After it, a crash leaves what a read gives.
    fn sync(&mut self, area: Area) -> Result<(), Failed>
        ensures goes { Goes (Within area (Synced (is_ok result))) (past self.old) (past self.new) }
        ensures cause { HasCause (past self.old).faults (past self.new).faults result };

    /// The number of calls so far but for those of `moment` itself. It stands still at 2^64 - 1.
    fn moment(&self) -> u64
        ensures { result ≡ (past self.now).moment };

    /// What a read gives is one of the contents that a crash may leave.
    ghost seen_may_be_left: { (d : Self) (m : ℕ) (s : State) → (past d).state_at m ≡ Some s → IsImage s (seen_image s) };
}
