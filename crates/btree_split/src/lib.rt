//! Towards splits of pages of a B+-tree: the lowest page with room on the way of a key, the two halves of a page, and the laws
//! that a tree stands as it should once they are put.
#![tactic(auto)]

mod half;
mod laws;
mod way;

pub use half::{lower_half, upper_half};
pub use laws::{a_page_of_a_placed_tree_is_split, halves_are_put};
pub use way::{LowestRoom, lowest_room};
