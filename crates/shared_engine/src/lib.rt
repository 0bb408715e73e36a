//! The engine of a database as sessions on threads share it: what they see of it, and that its calls are those of
//! `turn_engine`. Nothing waits here.
#![tactic(auto)]

mod engine;
mod lingering;
mod patience;
mod turns;

pub use engine::SharedEngine;
