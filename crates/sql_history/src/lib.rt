//! Which histories of SQL sessions are legal, and when they answer as their transactions do alone (in specs/); and what
//! each session has set for itself, with its savepoints (`SessionSettings`). But for the settings and the counts of
//! rows each function is empty, and its contract is a law of the definitions, which nothing calls.
#![tactic(auto)]

mod counts;
mod databases;
mod own_settings;
mod readings;
mod save_list;
mod savepoints;
mod settings;

pub use counts::{rows_kept, rows_of_reply};
pub use databases::{
    a_commit_adds_its_changes, a_commit_leaves_others_snapshots, a_later_view_sees_the_commit,
    all_changes_put_back_leave_the_database, without_own_changes_a_snapshot_is_committed,
};
pub use own_settings::SessionSettings;
pub use readings::{
    a_consistent_read_answers_by_its_view, after_a_stop_items_answer_stopped,
    nothing_commits_after_a_stop, the_front_of_a_legal_history_is_legal,
};
pub use savepoints::{a_rollback_keeps_its_savepoint, a_savepoint_takes_the_place_of_its_name};
pub use settings::Save;
