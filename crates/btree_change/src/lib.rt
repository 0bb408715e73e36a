//! Changes of a B+-tree over mini-transactions: a pair put into the leaf of its key, a value replaced in it, a pair taken
//! out of it. Afterwards the tree's pairs are those of a sorted list with the same change.
#![tactic(auto)]

mod changes;
mod edit;
mod leaf_changes;
mod place;

pub use changes::{insert, remove, replace};
pub use edit::{Edit, begin_of, lay};
pub use leaf_changes::{Insertion, insert_in, put_edit, remove_in, replace_in};
pub use place::has_room;
