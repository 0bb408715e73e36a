//! Reads that a signal may interrupt.
//! The disk and the source read through this.

ghost use Rattle.std.specs.Io.{ReadsAtMost};

use std::io;
use std::io::{ErrorKind, Read};

/// How often a call is made again that was interrupted.
pub const TRIES: u32 = 1000;

/// Whether a signal came before the call did anything.
pub fn is_interrupted(outcome: &io::Result<usize>) -> bool {
    match outcome {
        Ok(_) => false,
        Err(error) => error.kind() == ErrorKind::Interrupted,
    }
}

/// Reads some bytes, as `Read::read` does, and tries again where it was interrupted.
pub fn read_some<F: Read>(file: &mut F, into: &mut [u8]) -> io::Result<usize>
    ensures { ReadsAtMost result into.new }
{
    for _ in 0..TRIES {
        let outcome = file.read(into);
        if !is_interrupted(&outcome) {
            return outcome;
        }
    }
    Err(io::Error::from(ErrorKind::Interrupted))
}
