//! Merges in B+-trees over mini-transactions: two leaves side by side under one parent become one, and the page of the one to
//! the right is free again (`merge_in`). `tidy` does so where the leaf of a key holds few records. What becomes of the tree is
//! told by the bytes of its pages (`merges`). Who calls commits or gives up.
#![tactic(auto)]

mod free;
mod join;
mod look;
mod merge;
mod merges;
mod parent;
mod reading;
mod tidying;

pub use free::free_page;
pub use join::joined;
pub use merge::merge_in;
pub use merges::{
    a_merge_that_frees_its_page_shrinks_the_tree, a_page_outside_the_tree_is_freed,
    two_leaves_become_one,
};
pub use tidying::tidy;
