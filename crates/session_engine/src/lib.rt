//! Sessions whose statements make their steps in any order over one history, whatever keeps the lists that they share.
//! It is a state machine: nothing here loops over sessions or reads a script. An engine says what keeps the lists.
#![tactic(auto)]

mod boxed;
mod machine;
mod seats;
mod signalling;
mod steps;

pub use boxed::BoxedStatement;
pub use machine::SessionEngine;
pub use seats::{Seat, SignalItem, Wait};
