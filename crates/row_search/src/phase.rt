//! What a search does next.
//! The steps in `scan` and `visit` answer the next one; `search` alone chooses its step by it.

use inno_types::{Bytes, Row};

/// What comes next. `entry` is the key in the searched index at which the search is.
#[derive(Drop)]
pub enum Phase {
    /// The first pair of the range is sought.
    Seek,
    /// The pair behind the last one is sought.
    Follow,
    /// The clustered record of an entry is read.
    Fetch { entry: Bytes },
    /// The newest version of the row is looked at.
    Look { entry: Bytes, bytes: Bytes },
    /// The reader doesn't see the versions so far: the one that the pointer leads to is next.
    Walk { entry: Bytes, pointer: u64 },
    /// The reader sees this row. It is kept if this entry is its own.
    Keep { entry: Bytes, row: Row },
    /// The rows are put into the order of their primary keys.
    Sort,
    /// The actor's place is dropped.
    Leave,
}
