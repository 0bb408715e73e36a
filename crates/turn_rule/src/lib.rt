//! The rule of the turnstile: one engine that is handed from seat to seat, so that its history only grows and each
//! seat knows its own entries of it. What lies in the slot may be anything that tells a board; the crate above lays
//! the engine there, and waits.
#![tactic(auto)]

mod gate;
mod rule;
mod turn;

pub use gate::{Gate, Pass};
pub use rule::{Claim, View};
