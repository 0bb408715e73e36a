//! Laws of a store where rows are locked: several sessions are at work, each at a place that is its own by the lock of its record. Steps of changes
//! and of taking back keep what is held of all; what a session has searched and locked stays through commits of others; a search that locks finds
//! what its session sees now. Each function has an empty body: its contract is the law. A store under record locks is to cite them.
#![tactic(auto)]

mod changes;
mod ownership;
mod searched;
mod searches;
mod stores;

pub use changes::{
    a_change_begins, a_change_may_go_on, a_change_that_is_taken_back_keeps_all,
    a_step_of_a_change_keeps_all, a_taking_back_begins, a_taking_back_goes_on,
};
pub use ownership::{
    a_place_has_one_owner, a_place_without_a_record_is_nobodys, an_owner_may_put_a_record,
    who_is_granted_the_record_owns_the_place,
};
pub use searched::{
    a_search_keeps_what_it_knows, a_search_that_is_over_has_its_rows, commits_are_met_by_no_plan,
    commits_leave_what_is_kept, what_is_kept_stays_kept,
};
pub use searches::{
    a_marked_entry_is_passed, a_record_is_passed_or_found, a_search_begins,
    a_search_comes_to_the_next_key, a_search_for_one_key_locks_its_record,
    a_search_is_over_behind_its_range, the_record_of_an_entry_is_passed_or_found,
};
pub use stores::{
    a_reader_by_a_view_finds_its_rows, a_store_of_the_plain_lock_is_held,
    a_store_that_nobody_has_joined_is_held, calls_of_the_lock_table_keep_all,
};
