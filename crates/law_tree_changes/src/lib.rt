//! Laws of sound trees of which some pages are changed: what hangs on which pages, where a key belongs, pages that are
//! split, and roots that are raised. Each function has an empty body: its contract is the law. Nothing calls them; proofs
//! above cite the lemmas behind them, in proofs/.
#![tactic(auto)]

mod frames;
mod holders;
mod raises;
mod splits;

pub use frames::{a_tree_hangs_on_its_pages_alone, another_tree_stays};
pub use holders::one_page_of_a_level_holds_a_key;
pub use raises::a_sound_tree_is_raised;
pub use splits::{a_sound_tree_is_split, keys_behind_the_first_rise};
