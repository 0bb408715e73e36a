//! Changes of rows as small machines over any world: one call of the world a step.
//! `world_lists` drives them for statements, and an opening enters the keys of its rows by one (`engine`).
//! Rollback has machines of its own, in `undo_apply`.
#![tactic(auto)]

mod coding;
mod entering;
mod entry_mark;
mod entry_put;
mod key_entries;
mod keys_change;
mod record_change;
mod row_change;
mod row_edit;

pub use entry_mark::EntryMark;
pub use entry_put::{EntryPut, PutPhase};
pub use keys_change::KeysChange;
pub use record_change::{RecordChange, RecordStage};
pub use row_change::RowChange;
pub use row_edit::RowEdit;
