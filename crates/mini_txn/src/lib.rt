//! A mini-transaction over a pool that holds all pages: several edits of several pages, which stand at once with one group
//! of the log, or not at all. Trees, the space map and the catalog work on it through the trait `Mtr`.
#![tactic(auto)]

mod dealt;
mod edits;
mod mini;
mod placing;
mod work;

pub use dealt::{Dealt, Entry};
pub use edits::Edits;
pub use mini::MiniTxn;
pub use placing::place_copies;
pub use work::{shown_in, tells, write_in};
