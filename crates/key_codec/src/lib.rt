//! Keys of indexes as bytes, whose order byte by byte is the order of the values.
//! The layouts stand in specs/Keys.antt; the codes of rows use the parts that stand in `parts`.
#![tactic(auto)]

mod laws;
mod parts;
mod read;
mod write;

pub use laws::{entries_keep_order, keys_keep_order, one_entry, one_key, one_width};
pub use parts::{key_len, padded_text, put_padded, put_u64, u64_of};
pub use read::{KeyBad, get_key};
pub use write::{SIGN, put_entry, put_key};
