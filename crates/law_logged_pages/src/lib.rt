//! Laws: pages and the groups of the redo log that bring them on. A page that is found as it was after some of the groups
//! becomes what it is after all of them; so whatever a crash leaves recovers, as long as no page is placed before its log.
//! Each function has an empty body: its contract is the law.
#![tactic(auto)]

mod committing;
mod heads;
mod held_rows;
mod placing;
mod readings;
mod recovering;
mod stages;

pub use committing::a_commit_makes_the_next_pages;
pub use heads::{an_image_says_its_run, page_0_keeps_its_head};
pub use held_rows::{a_step_of_held_rows_reads_on, held_rows_outlast_a_crash, held_rows_read};
pub use placing::{
    a_batch_keeps, a_batch_outlasts_the_log, a_logged_batch_may_be_placed, a_staged_batch_keeps,
    placed_pages_keep, placed_pages_outlast_the_log, placed_pages_stay_placed,
};
pub use readings::{a_crash_leaves_some_commits, a_flush_reads_on, a_step_reads_on};
pub use recovering::an_image_recovers;
pub use stages::{a_stage_leads_on, a_stage_stays, log_before_page};
