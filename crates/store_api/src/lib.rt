//! What the store meets outside, a disk above all, and the answers that the layers above it share.
//! The traits say by ghost members what an object holds; the code above is generic over them.
#![tactic(auto)]

mod answers;
mod disk;
mod kinds;
mod limits;
mod moves;
mod outside;
mod stepped;
mod visits;

pub use answers::{Asked, MountBad, Progress, Standing, Undo, Version};
pub use disk::{Area, Disk};
pub use kinds::{Mark, PageRule, UndoKind};
pub use limits::{
    LONGEST_WAIT, MOST_BYTES_OF_KEY, MOST_BYTES_OF_VALUE, MOST_ITEMS, MOST_PAGES, MOST_ROWS,
    MOST_SESSIONS, MOST_SESSIONS_OF_SCRIPT,
};
pub use moves::Move;
pub use outside::{Clock, Failed, Gate, NoMemory, Sink, Source, Worker};
pub use stepped::Stepped;
pub use visits::{FindBad, FreshBad, SpaceBad, Visit};
