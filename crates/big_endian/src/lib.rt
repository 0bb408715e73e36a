//! Numbers as the bytes of files and keys, the highest byte first: the one place that reads and writes them, over `byteorder`.
//! Contracts have the words of std's numbers.
#![tactic(auto)]

mod reading;
mod writing;

pub use reading::{u16_at, u32_at, u64_at};
pub use writing::{put_u16, put_u32, put_u64, u16_bytes, u32_bytes, u64_bytes};
