//! The limits of what the store keeps, each once and with its name.
//! Every crate that makes room for a key, a record or a session takes the number from here.

/// The longest key of an index: an entry of a text of 32 bytes with a primary key of 32 bytes.
pub const MOST_BYTES_OF_KEY: usize = 67;

/// The longest value of an index: a row's record.
pub const MOST_BYTES_OF_VALUE: usize = 1024;

/// The most pages of a database.
pub const MOST_PAGES: u32 = 65_536;

/// The most sessions of an engine.
pub const MOST_SESSIONS: usize = 68;

/// The most rows that a history keeps in its changes and its replies.
pub const MOST_ROWS: u64 = 1_000_000;

/// The most sessions that a script names: an engine's, less the setup part and the seats of workers.
pub const MOST_SESSIONS_OF_SCRIPT: u32 = 64;

/// The most items of a script.
pub const MOST_ITEMS: u32 = 100_000;

/// How many seconds an item waits at most, for a signal or for a lock.
pub const LONGEST_WAIT: u64 = 50;
