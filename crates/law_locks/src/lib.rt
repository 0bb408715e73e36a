//! Laws of record locks. The keys that a transaction guards stay guarded through every call of a lock table, by whomever, its own
//! rollback included, in lists of keys and in indexes of pairs; an insertion is made with its locks in one step; and it is told which
//! calls can close a cycle of waits, how rounds end all cycles, and how a wait has ended.
//! Each function has an empty body, and its contract is the law, but for `take_new`, which makes a call. No engine takes such locks yet.
#![tactic(auto)]

mod alone;
mod barring;
mod closing;
mod guards;
mod index;
mod insertions;
mod outcomes;
mod pins;
mod rooms;
mod searching;
mod settling;
mod standing;
mod taking;

pub use alone::{nobody_is_beside, nobody_is_granted_what_another_has_alone};
pub use barring::{rows_before_lie_outside, rows_behind_lie_outside};
pub use closing::{
    ends_close_no_cycle, grants_close_no_cycle, insertions_close_no_cycle,
    only_who_waits_is_on_a_cycle, queued_requests_close_their_own, refusals_close_no_cycle,
    releases_close_no_cycle, removals_close_those_of_inserters, withdrawals_close_no_cycle,
};
pub use guards::{
    ends_of_others_keep_guards, insertions_keep_guards, new_locks_given_back_keep_guards,
    releases_of_others_keep_guards, removals_keep_guards, removals_keep_other_records,
    requests_keep_guards, withdrawals_keep_guards,
};
pub use index::{
    pairs_that_are_put_keep_guards, pairs_that_are_removed_keep_guards,
    values_that_are_replaced_keep_guards,
};
pub use insertions::{
    it_is_an_insertion, it_keeps_guards, nobody_else_guarded_the_new_key,
    room_lasts_behind_the_intention, the_inserter_has_the_record_alone,
};
pub use outcomes::{
    requests_served_are_told, requests_taken_back_are_told, requests_whose_record_went_are_told,
};
pub use pins::{
    changes_keep_what_is_guarded, insertions_keep_what_is_guarded,
    own_removals_keep_what_is_guarded, removals_of_others_keep_what_is_guarded,
};
pub use rooms::{rooms_last_through_a_round, rooms_last_through_other_calls};
pub use searching::{
    each_key_has_one_spot, gap_locks_guard_their_gaps, granted_requests_lock_their_spots,
    next_key_locks_guard_their_records, records_found_are_pinned,
};
pub use settling::{
    one_victim_is_chosen, removals_are_settled, rounds_come_to_an_end, settled_waits_have_no_cycle,
    victims_are_on_no_cycle, waits_are_settled,
};
pub use standing::{
    ends_leave_locks_standing, insertions_leave_locks_standing, new_records_are_free,
    new_records_with_room_are_granted, releases_leave_locks_standing,
    removals_leave_locks_standing, requests_leave_locks_standing, withdrawals_leave_locks_standing,
};
pub use taking::take_new;
