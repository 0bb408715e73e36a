//! What a search keeps of a clustered record, come to by itself or by an entry of a key.
//! Only the steps in `walk` and `visit` ask; bytes are read here, and no world is met.

ghost use Rattle.std.specs.Prelude.{◌≡◌, ◌≢◌};
ghost use Rattle.store_api.specs.declared.answers.Version.{Version};
ghost use Rattle.row_search.specs.Ranges.{primary_part};
ghost use Rattle.law_stored_rows.specs.Records.{IsCodeOf};
ghost use Rattle.secondary.specs.Entries.{HasSecondary};
ghost use Rattle.row_locking.specs.Kept.{KeepsOf, TellsOwn};

use crate::bounds::{copy_of, primary_of};
use entries::Buffer;
use inno_types::{Bytes, Schema};
use row_codec::{RowBad, decode, read_head};
use row_search::FoundRow;
use secondary::entry_from;
use std::alloc::Global;
use store_api::MOST_BYTES_OF_KEY;

/// Whether the entry is that of this record in the key of this number.
fn is_own(
    alloc: Global,
    schema: &Schema,
    which: u8,
    entry: &[u8],
    bytes: &[u8],
    memory: &mut Buffer,
) -> Result<bool, RowBad>
    requires { HasSecondary schema.now which }
    ensures { (coded : Version) → IsCodeOf schema.now (primary_part schema.now entry.now) bytes.now coded
        → TellsOwn schema.now which entry.now coded result }
{
    let Ok(mut own) = memory.with_room(alloc, MOST_BYTES_OF_KEY) else {
        return Err(RowBad::NoMemory);
    };
    if entry_from(schema, which, primary_of(schema, entry), bytes, &mut own).is_err() {
        return Err(RowBad::NoMemory);
    }
    let same = own.as_slice() == entry;
    memory.keep(Bytes::from_vec(own));
    Ok(same)
}

/// The row of a record that isn't marked, where the entry in the index of this number is the row's. All records of the
/// clustered index, whose number is 0, are those of their own rows.
pub fn found_at(
    alloc: Global,
    schema: &Schema,
    which: u8,
    entry: &[u8],
    bytes: &[u8],
    memory: &mut Buffer,
) -> Result<Option<FoundRow>, RowBad>
    requires { which ≢ 0 → HasSecondary schema.now which }
    ensures { (coded : Version) → IsCodeOf schema.now (primary_part schema.now entry.now) bytes.now coded
        → KeepsOf schema.now which entry.now coded result }
{
    let Some(head) = read_head(bytes) else {
        return Err(RowBad::Shape);
    };
    if head.marked {
        return Ok(None);
    }
    if which != 0 && !is_own(alloc, schema, which, entry, bytes, memory)? {
        return Ok(None);
    }
    let primary = primary_of(schema, entry);
    let version = decode(alloc, schema, primary, bytes)?;
    match copy_of(alloc, primary) {
        Ok(key) => Ok(Some(FoundRow {
            key,
            row: version.row,
        })),
        Err(_) => Err(RowBad::NoMemory),
    }
}
