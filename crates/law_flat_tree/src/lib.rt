//! Laws of a B+-tree as rows of pages: on each level the fences of its pages follow one another, and the entries of a level
//! are the low fences and the pages of the level below (`IsTree`, specs/Trees.antt). Each function has an empty body: its
//! contract is the law. Nothing calls them; proofs above cite the lemmas behind them, in proofs/.
#![tactic(auto)]

mod leaf_edits;
mod levels;
mod page_splits;
mod searches;

pub use leaf_edits::{
    a_key_is_removed_from_its_leaf, a_leaf_tells_whether_a_key_is_there,
    a_pair_is_put_into_its_leaf, a_value_is_replaced_in_its_leaf, an_empty_root_is_a_tree,
};
pub use levels::{a_merge_keeps_the_tree, a_raise_keeps_the_tree, a_split_keeps_the_tree};
pub use page_splits::{
    a_page_of_a_tree_is_split, a_root_is_raised, two_pages_of_a_tree_are_merged,
};
pub use searches::{a_descent_ends_at_the_leaf_of_its_key, a_leaf_tells_what_the_tree_has};
