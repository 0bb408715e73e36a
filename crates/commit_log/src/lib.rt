//! What an engine keeps of its log: the log, each session's draft (its open transaction's changes as records, with room
//! promised to them), and the LSN up to which its last commit needs the log flushed. It takes over each entry of a
//! session, so that what a crash leaves (`law_crashes`) keeps in step. Only `durable_engine` enters and flushes.
#![tactic(auto)]

mod commit_log;
mod draft;
mod draft_logging;
mod drafts;
mod laws;
mod redraft;
mod room;
mod spelling;
mod telling;

pub use commit_log::CommitLog;
pub use drafts::Drafts;
pub use laws::{a_record_tells_its_change, a_short_change_has_a_record};
pub use room::{MOST_RECORD, is_loggable};
pub use spelling::{put_change, put_change_reserved};
pub use telling::change_told;
