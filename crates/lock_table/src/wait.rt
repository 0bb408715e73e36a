//! How it stands with a request that had to wait, and what became of it.
//! The lock table tells it (`LockTable::wait`); nothing is kept here.

/// Its transaction asks with the lock that it has requested.
#[derive(Clone, Copy, Debug, PartialEq, Eq)]
pub enum Wait {
    /// It waits yet.
    Lasts,
    /// The lock is granted.
    Served,
    /// Its record went, and the request with it, or the lock that was granted meanwhile: its owner searches again.
    RecordGone,
    /// It was taken back.
    Withdrawn,
}
