//! A clock that stands still, and a gate that holds nobody up.
//! Only tests make them, for a program that is handed a clock and a gate.

ghost use Rattle.std.specs.Prelude.{Some};

use store_api::{Clock, Gate, Worker};

/// Always tells `now`.
#[derive(Clone, Copy)]
pub struct FixedClock {
    pub now: u64,
}

impl Clock for FixedClock {
    ghost told = { λ clock. Some clock.now };

    fn now(&self) -> u64 {
        self.now
    }
}

/// Does nothing.
#[derive(Clone, Copy)]
pub struct OpenGate;

impl Gate for OpenGate {
    fn before(&self, _session: u32, _item: u32) {}

    fn reading(&self, _session: u32) {}

    fn worker(&self, _kind: Worker) {}
}
