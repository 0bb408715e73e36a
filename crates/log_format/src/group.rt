//! Groups of changes. A group counts whole or not at all.
//! Whoever writes the log makes them; `write` spells them, and `reading` gives them back.

ghost use Rattle.std.specs.Prelude.{◌≡◌, ◌↔◌, IsTrue};

use crate::fits::records_fit;
use inno_types::{Bytes, Listed, Row, Schema, Value};

/// One change: of a page, or of the rows and tables before there are pages of them.
#[derive(Drop)]
pub enum Record {
    /// These bytes stand at `at`.
    Put { page: u32, at: u16, bytes: Bytes },
    /// The page is zeros but for its number.
    Fresh { page: u32 },
    /// The row stands under its key.
    RowPut { table: u8, row: Row },
    /// The row of the key is gone.
    RowRemove { table: u8, key: Value },
    /// The table is there, and empty.
    NewTable { schema: Schema },
}

pub type Records = Listed<Record>;

/// Changes under one log sequence number.
#[derive(Drop)]
pub struct Group {
    pub lsn: u64,
    pub records: Records,
}

pub type Groups = Listed<Group>;

impl Group {
    ghost use Rattle.log_format.specs.Group.{AreRecords};

    /// Whether all numbers fit their fields, and what is put lies in its page. Only such a group may be written.
    pub fn fits(&self) -> bool
        ensures { IsTrue result ↔ AreRecords self.now.records }
    {
        self.records.len() < 65536 && records_fit(self.records.as_slice())
    }
}
