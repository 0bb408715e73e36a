//! Reading a B+-tree over mini-transactions: the descent from the root to the leaf of a key, the first pair at or above a
//! key, and the walk to the right. A page is read where it stands, and a row goes into the caller's buffers.
#![tactic(auto)]

mod descent;
mod leaf;
mod page;
mod reading;
mod tree;
mod walking;

pub use descent::{leaf_of, step_down};
pub use leaf::{Spot, is_readable_leaf};
pub use page::{Down, child_at, first_place, is_laid_out, key_at};
pub use reading::{following, next_key, seek};
pub use tree::{Bound, Tree};
pub use walking::{find_first, read_row};
