//! One ordered index as the list of its pairs of a key and a value: the calls that every index has, and an index that is
//! a map in memory. Statements, rollback and purge go through the trait; each call is one step of an actor.
#![tactic(auto)]

mod buffers;
mod index;
mod laws;
mod list_index;
mod pairs;

pub use buffers::{Buffer, PairBuffers};
pub use index::Entries;
pub use laws::{
    a_list_has_no_pages, each_edit_is_of_one_key, edits_keep_the_order, finds_are_first,
    without_pages_calls_end,
};
pub use list_index::ListIndex;
