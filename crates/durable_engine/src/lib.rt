//! An engine whose commits outlive the run, whatever keeps the lists that its sessions share. While its disk serves it, its
//! sessions run with their log (`LoggedSessions`: room before a change, each entry taken over); once the disk has failed it
//! has stopped for good, and each item ends with the reply that says so.
#![tactic(auto)]

mod engine;
mod entering;
mod logged;
mod parts;
mod root;
mod stepping;
mod stop_entries;
mod stopped;
mod stopped_seats;

pub use engine::DurableEngine;
pub use logged::LoggedSessions;
pub use root::Root;
pub use stopped::StoppedSessions;
pub use stopped_seats::Seat;
