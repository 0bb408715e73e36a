//! Laws: what whoever opens a database reads of the records, older versions and open transactions of an engine that was going on
//! (specs/Rows.antt), of its pages with what it kept in memory (specs/Pages.antt), and of pages alone, with undo pages and slots
//! (specs/Undo.antt), is what was committed; and a step of an engine over pages leaves that so, whenever a crash comes
//! (specs/Durable.antt). Recovery of rows in pages is to rest on them. Each function has an empty body: its contract is the law.
#![tactic(auto)]

mod pages;
mod rows;
mod steps;
mod undo;

pub use pages::{held_pages_read, pages_stand_for_one_database};
pub use rows::{a_record_reads_one_way, a_rollback_leaves_what_is_read, held_rows_read};
pub use steps::a_held_step_is_durable;
pub use undo::{
    a_cleaned_record_reads_the_same, held_pages_read_alone, no_sum_is_read,
    pages_alone_stand_for_one_database,
};
