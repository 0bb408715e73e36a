//! The machine's clock.
//! `innod` makes one; it is read through the trait `Clock`.

ghost use Rattle.std.specs.Prelude.{None};

use std::time;
use store_api::Clock;

/// Gives the seconds since some start. It doesn't go back when the machine's date is set, and tells 0 where it
/// can't be read.
#[derive(Drop)]
pub struct SystemClock<C: time::Clock> {
    clock: C,
}

impl<C: time::Clock> SystemClock<C> {
    pub fn new(clock: C) -> Self {
        SystemClock { clock }
    }
}

impl<C: time::Clock> Clock for SystemClock<C> {
    ghost told = { λ _. None };

    fn now(&self) -> u64 {
        match self.clock.monotonic() {
            Ok(time) => time.as_secs(),
            Err(_) => 0,
        }
    }
}
