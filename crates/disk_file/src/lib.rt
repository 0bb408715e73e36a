//! The trusted edge: files, standard output and the machine's clock. Each object tells nothing of content,
//! and counts its faults. No contract says what files do.
#![tactic(auto)]

mod area;
mod clock;
mod disk;
mod fault;
mod gate;
mod locking;
mod path;
mod reading;
mod sink;
mod source;

pub use clock::SystemClock;
pub use disk::FileDisk;
pub use gate::FreeGate;
pub use locking::LockFiles;
pub use sink::StdSink;
pub use source::FileSource;
