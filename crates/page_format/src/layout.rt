//! Where the fields of pages of trees stand, and which values they have. The fields of every page stand in `stored_pages`.
//! Every crate over pages of trees takes these numbers from here. No code stands here.

/// The byte of a page where its kind stands, 1 byte.
pub const KIND: usize = 20;

/// The kind of a leaf.
pub const LEAF: u8 = 3;

/// The kind of an inner page of a tree.
pub const INNER: u8 = 4;

/// The byte of a page where its level stands, 1 byte: 0 for a leaf.
pub const LEVEL: usize = 21;

/// The most levels of a tree.
pub const MOST_LEVELS: u8 = 8;

/// The byte of a page where the count of its records begins, 2 bytes.
pub const COUNT: usize = 22;

/// The byte of a page where the number of its index begins, 4 bytes.
pub const INDEX: usize = 24;

/// The byte of a page where the number of its right neighbour begins, 4 bytes: 0 for none.
pub const RIGHT: usize = 28;

/// The byte of a page where the length of a record begins, 2 bytes.
pub const WIDTH: usize = 32;

/// The byte of a page where the length of its low fence stands, 1 byte.
pub const LOW_LEN: usize = 34;

/// The byte of a page where the length of its high fence stands, 1 byte.
pub const HIGH_LEN: usize = 35;

/// The length of a fence that isn't there.
pub const NO_FENCE: u8 = 255;

/// The byte of a page where its low fence begins.
pub const LOW: usize = 36;

/// The byte of a page where its high fence begins.
pub const HIGH: usize = 116;

/// How many bytes a fence has room for.
pub const FENCE: usize = 80;

/// The byte of a page where its fences have ended: zeros from here to the records.
pub const FENCES_END: usize = 196;

/// The byte of a page where its records begin.
pub const RECORDS: usize = 208;

/// How many bytes a child's number has, the last ones of a record of an inner page.
pub const CHILD: usize = 4;
