//! Versions of rows: what a version is, where its row stands, and what is kept of it for a roll pointer. The store's
//! calls by roll pointers are those of `World`; what they answer is said here.
#![tactic(auto)]

mod answers;
mod kept;
mod place;
mod version;

pub use answers::ChainBad;
pub use kept::Kept;
pub use place::Place;
pub use version::Version;
