//! What a search that locks does next.
//! The steps in `walk` and `visit` answer the next one; `search` alone chooses its step by it.

use inno_types::Bytes;

/// What comes next.
#[derive(Drop)]
pub enum LockingPhase {
    /// The next pair is sought, and locked.
    Next,
    /// The clustered record of an entry, which isn't marked and is locked, is locked and read.
    Row { entry: Bytes },
    /// The rows are put into the order of their primary keys.
    Sort,
    /// The actor's place is dropped.
    Leave,
}
