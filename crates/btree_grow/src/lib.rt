//! B+-trees that grow over mini-transactions: a free page is taken, a full page is split under a parent with room, a root gets a
//! level below it, and all of that along the way of a key, so that its leaf has room (`make_room`): who calls commits or gives up.
//! `insert` adds a pair in a mini-transaction of its own. Trees of other indexes stay as they are (`others`).
#![tactic(auto)]

mod growing;
mod inserts;
mod laws;
mod others;
mod raises;
mod root;
mod splits;
mod taking;

pub use growing::{Room, make_room};
pub use inserts::{Outcome, insert};
pub use laws::{a_placed_tree_is_raised, a_raised_root_is_put};
pub use others::another_tree_stays;
pub use root::raised_root;
