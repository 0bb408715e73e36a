//! A version as it is kept, beside its encoded bytes and the key of its row.
//! `list_store` alone makes one, of an undo record that keeps a version, and its slots keep it.

use inno_types::Bytes;
use store_api::Version;

/// A version, the bytes that its writer encoded, and the row that it is of: its table, and the bytes of its key.
#[derive(Drop)]
pub struct Kept {
    pub table: u8,
    pub key: Bytes,
    pub version: Version,
    pub bytes: Bytes,
}
