//! What the program meets outside beside its files: memory, a source, a sink, a clock and a gate.
//! There are traits and bare answers here: `disk_file` meets the outside by them, and `disk_mem` in tests.

ghost use Rattle.std.specs.Prelude.{◌≡◌, ℕ, ◌<◌, List, length, Option, IfOk, IfSome};
ghost use Rattle.std.specs.Io.{ReadsAtMost, WritesAtMost};
ghost use Rattle.std.specs.Io.KnownBytes.{ReadConsumes, WriteAppends};
ghost use Rattle.store_api.specs.Causes.{HasCause};

use std::alloc::{AllocError, AllocFailed};

/// Memory ran out.
#[derive(Clone, Copy, Debug)]
pub struct NoMemory;

impl From<AllocError> for NoMemory {
    fn from(_: AllocError) -> NoMemory {
        NoMemory
    }
}

impl<T: Drop> From<AllocFailed<T>> for NoMemory {
    fn from(_: AllocFailed<T>) -> NoMemory {
        NoMemory
    }
}

/// A call of the outside failed. Its object has counted a fault.
#[derive(Clone, Copy, Debug, PartialEq, Eq)]
pub struct Failed;

/// Where a script comes from.
pub trait Source {
    /// The bytes that are left, where the source tells them.
    ghost left: { Self → Option (List ℕ) };

    /// How often the source has failed.
    ghost faults: { Self → ℕ };

    /// Reads some bytes. `Ok(0)` into a slice that isn't empty is the end.
    fn read(&mut self, into: &mut [u8]) -> Result<usize, Failed>
        ensures bound { ReadsAtMost result into.new }
        ensures bytes { ReadConsumes (left self.old) (left self.new) result into.new }
        ensures cause { HasCause (faults self.old) (faults self.new) result };
}

/// Where a transcript goes.
pub trait Sink {
    /// The bytes that were taken, where the sink tells them.
    ghost taken: { Self → Option (List ℕ) };

    /// How often the sink has failed.
    ghost faults: { Self → ℕ };

    /// Takes at least one byte of a piece that isn't empty, or fails.
    fn write(&mut self, piece: &[u8]) -> Result<usize, Failed>
        ensures bound { WritesAtMost result piece.now }
        ensures some { IfOk result (λ n. 0 < length piece.now → 0 < n) }
        ensures bytes { WriteAppends (taken self.old) (taken self.new) result piece.now }
        ensures cause { HasCause (faults self.old) (faults self.new) result };
}

/// Gives seconds. Nothing is known of them but the value.
pub trait Clock {
    /// The moment, where the clock tells it.
    ghost told: { Self → Option ℕ };

    fn now(&self) -> u64
        ensures { IfSome (told self.now) (λ moment. result ≡ moment) };
}

/// An actor that works beside the sessions.
#[derive(Clone, Copy)]
pub enum Worker {
    Purge,
    Flush,
}

/// Is called between steps. In a test a gate may wait.
pub trait Gate {
    fn before(&self, session: u32, item: u32);

    fn reading(&self, session: u32);

    fn worker(&self, kind: Worker);
}
