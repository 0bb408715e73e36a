//! Undo records in pages, over any `Mtr`: how one lies on a page, and how it is appended and read back.
//! No engine calls this yet. What undo pages mean is said by `law_read_pages`; which pages are free is the space map's to say.
#![tactic(auto)]

mod appending;
mod laws;
pub mod layout;
mod record;
mod slots;

pub use appending::append_in;
pub use laws::{
    a_closed_log_is_open_no_more, an_appended_record_stands, an_opened_log_is_open,
    earlier_records_stay,
};
pub use record::{Undo, Undone, put_record, read_record};
pub use slots::{close_in, open_in};
