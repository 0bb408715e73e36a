//! The check of trees over the pages of a file: `check_space` looks at the first pages, `check_tree` walks each level of a tree
//! beside the one above it, without memory. Pages that pass are a tree as it should be, on pages that are in use; and such a
//! tree always passes, where the bytes of its pages are those pages. A mount is to ask it; so far only tests do.
#![tactic(auto)]

mod fences;
mod laws;
mod node;
mod pages;
mod rows;
mod rules;
mod space;
mod whole;

pub use fences::{do_meet, high_fence_of, low_fence_of};
pub use laws::a_node_is_a_page_of_its_tree;
pub use node::{NodeBad, check_node};
pub use pages::{PageFault, read_node};
pub use rows::{RowFault, Walk, check_level};
pub use rules::rule_broken;
pub use space::{SpaceFault, check_space, is_used, page_count};
pub use whole::check_tree;
