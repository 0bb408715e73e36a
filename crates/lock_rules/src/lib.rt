//! Which locks conflict, which lock covers a request, and which lock each rule gives. Nothing here keeps a lock.
//! The tables of locks and latches ask here, and definitions of legal histories cite the same words. No engine asks
//! yet: none takes locks of records.
#![tactic(auto)]

mod conflict;
mod rule;

pub use conflict::{
    conflicts, covers, is_shared, is_upper, kind_at, kind_covers, kinds_conflict, locks_gap,
    locks_record, same_kind, same_lock, same_mode, same_reason, same_spot,
};
pub use rule::{Case, Place, Rule, fits, rule_for};
