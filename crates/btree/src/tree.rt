//! What is known of a tree before a page of it is read, and which keys a search looks for.
//! A tree's page 0 says nothing of it: whoever keeps the catalog knows its root.

/// An index's tree: its number, its root, and how many bytes a key and a value have.
#[derive(Clone, Copy, PartialEq, Eq)]
pub struct Tree {
    pub index: u32,
    pub root: u32,
    pub key_len: u8,
    pub value_len: u16,
}

/// Which keys pass in a search: those at or above a key, or those above it.
#[derive(Clone, Copy)]
pub enum Bound {
    AtOrAbove,
    Above,
}
