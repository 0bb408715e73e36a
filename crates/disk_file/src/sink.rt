//! Standard output as a sink.
//! `innod` makes one; what is printed comes through the trait `Sink`.

ghost use Rattle.std.specs.Prelude.{None};
ghost use Rattle.std.specs.Io.{WritesAtMost};

use crate::reading::{TRIES, is_interrupted};
use std::io;
use std::io::ErrorKind;
use store_api::{Failed, Sink};

/// Prints what it takes.
#[derive(Drop)]
pub struct StdSink<P: Print> {
    printer: P,
    faults: u64,
}

impl<P: Print> StdSink<P> {
    pub fn new(printer: P) -> Self {
        StdSink { printer, faults: 0 }
    }
}

impl<P: Print> Sink for StdSink<P> {
    ghost taken = { λ _. None };

    ghost faults = { λ sink. sink.faults };

    fn write(&mut self, piece: &[u8]) -> Result<usize, Failed> {
        match print_some(&self.printer, piece) {
            Ok(count) if count > 0 || piece.is_empty() => Ok(count),
            _ => {
                self.faults = self.faults.saturating_add(1);
                Err(Failed)
            }
        }
    }
}

/// Prints some bytes, and tries again where a signal has interrupted it.
fn print_some<P: Print>(printer: &P, piece: &[u8]) -> io::Result<usize>
    ensures { WritesAtMost result piece.now }
{
    for _ in 0..TRIES {
        let outcome = printer.write_some(piece);
        if !is_interrupted(&outcome) {
            return outcome;
        }
    }
    Err(io::Error::from(ErrorKind::Interrupted))
}
