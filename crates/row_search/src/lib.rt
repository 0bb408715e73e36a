//! A statement's search for rows: one index is walked within a range, over any world, one call of the world a step.
//! Statements drive it; it changes nothing but its actor's place in the index that it walks.
#![tactic(auto)]

mod bounds;
mod entry;
mod found;
mod glance;
mod laws;
mod phase;
mod scan;
mod search;
mod side;
mod sight;
mod visit;

pub use found::FoundRow;
pub use laws::{
    a_search_finds_all_that_match, seen_rows_have_their_keys, steps_of_others_keep_what_was_found,
    the_newest_rows_are_seen,
};
pub use phase::Phase;
pub use scan::Scan;
pub use search::{Came, Hindrance, RowSearch};
pub use sight::Sight;
