//! The outside in memory, for tests and for proofs that meet each trait at a concrete type.
//! The disk keeps a record of its calls, from which all that a crash may leave follows.
#![tactic(auto)]

mod areas;
mod call;
mod disk;
mod image;
mod sink;
mod source;
mod still;
mod write;

pub use disk::MemDisk;
pub use image::Pick;
pub use sink::MemSink;
pub use source::MemSource;
pub use still::{FixedClock, OpenGate};
