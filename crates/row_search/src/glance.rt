//! What a reader sees of one version, told by the bytes of its record. Memory is taken for a row that is seen, and for
//! nothing else.

ghost use Rattle.std.specs.Prelude.{◌≡◌};
ghost use Rattle.store_api.specs.declared.answers.Version.{Version};
ghost use Rattle.row_codec.specs.Refused.{IsOrNoMemory};
ghost use Rattle.row_codec.specs.Rows.{IsRecordOf, IsVersion};
ghost use Rattle.row_search.specs.Visits.{glance_at};

use crate::sight::Sight;
use inno_types::{Row, Schema};
use row_codec::{RowBad, decode, read_head};
use std::alloc::Global;

/// What a reader sees of a version.
#[derive(Drop)]
pub enum Glance {
    /// It doesn't see the version: the one that the pointer leads to is next.
    Older { pointer: u64 },
    /// It sees that the row is deleted.
    Deleted,
    /// It sees this row.
    Row(Row),
}

impl Sight {
    /// Looks at the version whose record has this key and these bytes. Its fields are read where the row is seen.
    pub fn glance(
        &self,
        alloc: Global,
        schema: &Schema,
        key: &[u8],
        bytes: &[u8],
    ) -> Result<Glance, RowBad>
        ensures { (version : Version) → IsVersion version → IsRecordOf schema.now version key.now bytes.now
            → IsOrNoMemory result (glance_at self.now version) }
    {
        let head = read_head(bytes).ok_or(RowBad::Shape)?;
        if !self.sees(head.writer) {
            return Ok(Glance::Older {
                pointer: head.pointer,
            });
        }
        if head.marked {
            return Ok(Glance::Deleted);
        }
        let version = decode(alloc, schema, key, bytes)?;
        Ok(Glance::Row(version.row))
    }
}
