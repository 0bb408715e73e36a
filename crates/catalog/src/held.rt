//! A table as the catalog holds it.
//! The bytes of one stand in specs/Entry.antt.

use inno_types::{Listed, Schema};

/// Numbers of root pages, the clustered index's first.
pub type Roots = Listed<u32>;

/// A table's schema, and the root pages of its indexes.
#[derive(Drop)]
pub struct Held {
    pub schema: Schema,
    pub roots: Roots,
}

pub type Schemas = Listed<Held>;

/// Why bytes are no entry of the catalog.
#[derive(Clone, Copy, Debug)]
pub enum EntryBad {
    Shape,
    NoMemory,
}
