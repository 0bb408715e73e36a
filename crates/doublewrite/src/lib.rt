//! The doublewrite: a page is written in place only after a copy of it is synced, and repair puts torn pages right.
//! Tests apart, no other crate writes to the areas Double and Pages, but `file_zero`, which makes page 0 of new files.
#![tactic(auto)]

mod batch;
mod placing;
mod restoring;

pub use batch::Batch;
pub use placing::{Staged, stage};
pub use restoring::{RepairBad, repair};
