//! Reads a clustered record as the version that it stands for. Nothing is handed out where bytes are refused.
//! The key is read by `key_codec`.

ghost use Rattle.std.specs.Prelude.{◌≡◌, ℕ, List, Bool, ◌+◌, ◌≤◌, ◌∷◌, ◌++◌, length, All, IfOk, IfSome, IfNone, Some, Err, remove};
ghost use Rattle.inno_types.specs.declared.value.Schema.{Schema};
ghost use Rattle.inno_types.specs.declared.value.Value.{Value};
ghost use Rattle.store_api.specs.declared.answers.Version.{Version};
ghost use Rattle.key_codec.specs.Keys.{Has64Bits};
ghost use Rattle.key_codec.specs.Numbers.{u64_bytes};
ghost use Rattle.row_codec.specs.Heads.{IsHeadOf, version_head};
ghost use Rattle.row_codec.specs.Refused.{IsOrNoMemory};
ghost use Rattle.row_codec.specs.Rows.{IsStored, IsRecordOf, IsVersion, mark_code};

use crate::fields::{around, fields_of};
use crate::refused::RowBad;
use inno_types::{Row, Schema};
use key_codec::{get_key, u64_of};
use std::alloc::Global;
use store_api::Version;

/// What stands before the fields of a record: whether the version is deleted, who wrote it, and where the version before it
/// is kept (0 for none).
#[derive(Clone, Copy)]
pub struct Head {
    pub marked: bool,
    pub writer: u64,
    pub pointer: u64,
}

fn mark_of(byte: u8) -> Option<bool>
    ensures found { IfSome result (λ marked. byte ≡ mark_code marked) }
    ensures none { IfNone result ((marked : Bool) → byte ≡ mark_code marked → ⊥) }
{
    match byte {
        0 => Some(false),
        1 => Some(true),
        _ => None,
    }
}

/// The number at the front of the bytes, and the bytes behind it.
fn number_of(bytes: &[u8]) -> Option<(u64, &[u8])>
    ensures found { IfSome result (λ read. bytes.now ≡ u64_bytes read.0 ++ read.1.now) }
    ensures none { IfNone result ((n : ℕ) (rest : List ℕ) → bytes.now ≡ u64_bytes n ++ rest → ⊥) }
{
    if bytes.len() < 8 {
        return None;
    }
    let (front, rest) = bytes.split_at(8);
    let number = u64_of(front)?;
    Some((number, rest))
}

/// The head at the front of the bytes, and the bytes behind it.
fn head_of(bytes: &[u8]) -> Option<(Head, &[u8])>
    ensures found { IfSome result (λ read. IsHeadOf read.0 read.1.now bytes.now) }
    ensures none { IfNone result ((head : Head) (fields : List ℕ) → IsHeadOf head fields bytes.now → ⊥) }
{
    let (mark, behind) = bytes.split_first()?;
    let marked = mark_of(*mark)?;
    let (writer, behind) = number_of(behind)?;
    let (pointer, behind) = number_of(behind)?;
    let head = Head {
        marked,
        writer,
        pointer,
    };
    Some((head, behind))
}

/// The head of the record whose value has these bytes. Its fields are not looked at, so no memory is taken.
pub fn read_head(value: &[u8]) -> Option<Head>
    // What is read stands at the front of the bytes.
    ensures found { IfSome result (λ head. (fields : List ℕ) × IsHeadOf head fields value.now) }
    // Where the bytes are a version's record, it is the head of that version.
    ensures back { (schema : Schema) (version : Version) (key : List ℕ) → IsVersion version
        → IsRecordOf schema version key value.now → result ≡ Some (version_head version) }
    // Bytes are refused only where no head stands at their front.
    ensures none { IfNone result ((head : Head) (fields : List ℕ) → IsHeadOf head fields value.now → ⊥) }
{
    let (head, _) = head_of(value)?;
    Some(head)
}

/// The row of these fields whose primary value has this key.
fn row_of(alloc: Global, schema: &Schema, key: &[u8], fields: &[u8]) -> Result<Row, RowBad>
    ensures found { IfOk result (λ row. IsStored schema.now row key.now fields.now) }
    ensures range { IfOk result (All Has64Bits) }
    ensures shape { result ≡ Err RowBad.Shape → (row : List Value)
        → IsStored schema.now row key.now fields.now → ⊥ }
{
    let columns = schema.columns.as_slice();
    let Some(column) = columns.get(usize::from(schema.primary)) else {
        return Err(RowBad::Shape);
    };
    let primary = get_key(alloc, key, column.kind)?;
    let (before, behind) = around(columns, schema.primary);
    let mut row = Vec::new(alloc);
    let rest = fields_of(alloc, before, fields, &mut row)?;
    row.push(primary)?;
    let rest = fields_of(alloc, behind, rest, &mut row)?;
    if rest.is_empty() {
        Ok(Row::from_vec(row))
    } else {
        Err(RowBad::Shape)
    }
}

/// The version whose clustered record has this key and this value, all of their bytes.
pub fn decode(alloc: Global, schema: &Schema, key: &[u8], value: &[u8]) -> Result<Version, RowBad>
    // What is read is a version of the table, and these are the bytes of its record.
    ensures found { IfOk result (λ version. IsRecordOf schema.now version key.now value.now) }
    ensures range { IfOk result IsVersion }
    // What was written as a record is read again, unless memory runs out.
    ensures back { (version : Version) → IsVersion version
        → IsRecordOf schema.now version key.now value.now → IsOrNoMemory result version }
    // Bytes are refused only where no version's record has them.
    ensures shape { result ≡ Err RowBad.Shape → (version : Version)
        → IsRecordOf schema.now version key.now value.now → ⊥ }
{
    let Some((head, fields)) = head_of(value) else {
        return Err(RowBad::Shape);
    };
    let row = row_of(alloc, schema, key, fields)?;
    Ok(Version {
        row,
        writer: head.writer,
        pointer: head.pointer,
        marked: head.marked,
    })
}
