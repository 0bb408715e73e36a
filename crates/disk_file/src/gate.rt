//! A gate for sessions that nothing holds up: the program's.
//! Tests have gates of their own.

use store_api::{Gate, Worker};

/// Lets every session and every worker go on at once.
#[derive(Clone, Copy)]
pub struct FreeGate;

impl Gate for FreeGate {
    fn before(&self, _session: u32, _item: u32) {}

    fn reading(&self, _session: u32) {}

    fn worker(&self, _kind: Worker) {}
}
