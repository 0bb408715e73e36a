//! Where the fields of an undo page stand, behind those of every page.
//! Only this crate writes to undo pages. No code stands here.

/// The byte of an undo page where the end of its records stands, 2 bytes.
pub const END: usize = 48;

/// The byte of the first page of a log that says whether an update is in it, 1 byte.
pub const HAS_UPDATE: usize = 51;

/// The byte of an undo page where its records begin.
pub const FIRST_RECORD: usize = 64;

/// How many bytes a record has beside its key and its value.
pub const BESIDE: usize = 7;

/// The kind of a record that takes back an insertion.
pub const INSERTION: u8 = 1;

/// The kind of a record that takes back a change.
pub const CHANGE: u8 = 2;

/// The byte of an undo page where the id of its transaction stands, 8 bytes.
pub const ID: usize = 32;

/// The byte of the first page of a log that says whether the log is open, 1 byte.
pub const STATE: usize = 50;

/// The state of a log whose transaction is open.
pub const OPEN: u8 = 1;

/// The page of the slots.
pub const SLOT_PAGE: u32 = 1;

/// The byte of page 1 where its first slot begins.
pub const FIRST_SLOT: usize = 40;

/// How many bytes a slot has: an id, 8 bytes, and the first and the last page of a log, 4 bytes each.
pub const SLOT: usize = 16;
