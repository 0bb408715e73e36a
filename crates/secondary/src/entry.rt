//! The entry of a record in a key of its table. What is appended stands behind what was in `out`; on an `Err` a part
//! of it may stand there.

ghost use Rattle.std.specs.Prelude.{◌≡◌, ℕ, ℤ, List, ◌<◌, ◌≤◌, ◌+◌, ◌^◌, ◌∷◌, [], ◌++◌, length, FitsSigned, slice_get, slice_index_or, OnOk, OnErr, vec_len, vec_capacity, IsTrue, ◌↔◌};
ghost use Rattle.std.specs.Int.{w64, cast_unsigned};
ghost use Rattle.inno_types.specs.declared.value.Value.{Value};
ghost use Rattle.store_api.specs.declared.answers.Version.{Version};
ghost use Rattle.key_codec.specs.Keys.{IsOfKindOrNull, Has64Bits, HasKey, HasEntry, raised, key_code, entry_front};
ghost use Rattle.key_codec.specs.Numbers.{u64_bytes};
ghost use Rattle.row_codec.specs.Rows.{IsRecordOf, IsVersion, body_code, field_code};
ghost use Rattle.secondary.specs.Entries.{HasSecondary, place_of, front_at, entry_of};

use crate::fields::{column_kind, field_at};
use big_endian::u64_bytes;
use inno_types::{Kind, Schema};
use key_codec::{SIGN, u64_of};
use std::alloc::AllocError;
use store_api::NoMemory;

/// The flag of a field or an entry that isn't NULL.
const PRESENT: u8 = 1;

/// Added to a number in two's complement, it gives the number whose bytes are the key.
/// The number whose bytes are the key of the number that has these in two's complement.
fn raised_bits(bits: u64) -> u64
    ensures { (n : ℤ) → FitsSigned w64 n → u64_bytes bits ≡ u64_bytes (cast_unsigned w64 n) → result ≡ raised n }
{
    bits.wrapping_add(SIGN)
}

/// Appends the key of a number that stands there in two's complement.
#[tactic(auto, unfolding(key_codec::specs::Numbers::u64_bytes))]
fn put_number(body: &[u8], out: &mut Vec<u8>) -> Result<(), AllocError>
    ensures ok { (n : ℤ) → FitsSigned w64 n → body.now ≡ u64_bytes (cast_unsigned w64 n)
        → OnOk result (out.new.items ≡ out.old.items ++ u64_bytes (raised n)) }
    ensures full { OnErr result (vec_capacity out.old < vec_len out.old + 8) }
    ensures room { vec_capacity out.old ≤ vec_capacity out.new }
{
    match u64_of(body) {
        Some(bits) => out.extend_from_slice(&u64_bytes(raised_bits(bits))),
        None => Ok(()),
    }
}

/// Appends a text and then its length, which stands in front of it there.
fn put_text(body: &[u8], out: &mut Vec<u8>) -> Result<(), AllocError>
    ensures ok { (len : ℕ) (text : List ℕ) → body.now ≡ len ∷ text
        → OnOk result (out.new.items ≡ out.old.items ++ (text ++ len ∷ [])) }
    ensures full { OnErr result (vec_capacity out.old < vec_len out.old + length body.now) }
    ensures room { vec_capacity out.old ≤ vec_capacity out.new }
{
    match body.split_first() {
        Some((len, text)) => {
            out.extend_from_slice(text)?;
            out.push(*len)?;
            Ok(())
        }
        None => Ok(()),
    }
}

/// Appends the key of a value, of which these are the bytes behind its field's flag.
fn put_body(kind: Kind, body: &[u8], out: &mut Vec<u8>) -> Result<(), AllocError>
    ensures ok { (value : Value) → HasKey kind value → body.now ≡ body_code kind value
        → OnOk result (out.new.items ≡ out.old.items ++ key_code kind value) }
    ensures full { (value : Value) → HasKey kind value → body.now ≡ body_code kind value
        → OnErr result (vec_capacity out.old < vec_len out.old + length body.now) }
    ensures room { vec_capacity out.old ≤ vec_capacity out.new }
{
    match kind {
        Kind::BigInt => put_number(body, out),
        Kind::VarBinary(_) => put_text(body, out),
    }
}

/// Appends what stands before the primary key in the entry of a value of which this is the field.
fn put_field(kind: Kind, field: &[u8], out: &mut Vec<u8>) -> Result<(), AllocError>
    ensures ok { (value : Value) → HasEntry kind value → field.now ≡ field_code kind value
        → OnOk result (out.new.items ≡ out.old.items ++ entry_front kind value) }
    ensures full { (value : Value) → HasEntry kind value → field.now ≡ field_code kind value
        → OnErr result (vec_capacity out.old < vec_len out.old + length field.now) }
    ensures room { vec_capacity out.old ≤ vec_capacity out.new }
{
    match field.split_first() {
        Some((flag, body)) => {
            if *flag != PRESENT {
                return out.extend_from_slice(field);
            }
            out.push(PRESENT)?;
            put_body(kind, body, out)
        }
        None => Ok(()),
    }
}

/// Appends what stands before the primary key in the entry of a record in a key on the column at this place.
fn put_front(
    schema: &Schema,
    place: u8,
    key: &[u8],
    value: &[u8],
    out: &mut Vec<u8>,
) -> Result<(), AllocError>
    requires { place < length schema.now.columns }
    ensures ok { (version : Version) → IsVersion version → IsRecordOf schema.now version key.now value.now
        → OnOk result (out.new.items ≡ out.old.items ++ front_at schema.now.columns place version.row) }
    ensures full { (version : Version) → IsVersion version → IsRecordOf schema.now version key.now value.now
        → OnErr result (vec_capacity out.old
        < vec_len out.old + length (front_at schema.now.columns place version.row)) }
    ensures room { vec_capacity out.old ≤ vec_capacity out.new }
{
    if place == schema.primary {
        out.push(PRESENT)?;
        return out.extend_from_slice(key);
    }
    let columns = schema.columns.as_slice();
    match field_at(columns, schema.primary, place, value) {
        Some(field) => put_field(column_kind(columns, place), field, out),
        None => Ok(()),
    }
}

/// Whether the table has a key of this number, counted from 1, and its column.
pub fn has_secondary(schema: &Schema, which: u8) -> bool
    ensures { IsTrue result ↔ HasSecondary schema.now which }
{
    if which == 0 {
        return false;
    }
    match schema.keys.as_slice().get(usize::from(which) - 1) {
        Some(key) => usize::from(key.column) < schema.columns.len(),
        None => false,
    }
}

/// The place of the column that a key is on.
fn key_place(schema: &Schema, which: u8) -> u8
    requires { HasSecondary schema.now which }
    ensures { result ≡ place_of schema.now which }
{
    schema.keys.as_slice()[usize::from(which) - 1].column
}

/// Puts the entry that a record has in a secondary key, counted from 1, in place of what stands in `out`. Of bytes
/// that are no record it makes bytes without a meaning.
pub fn entry_from(
    schema: &Schema,
    which: u8,
    key: &[u8],
    value: &[u8],
    out: &mut Vec<u8>,
) -> Result<(), NoMemory>
    requires { HasSecondary schema.now which }
    ensures ok { (version : Version) → IsVersion version → IsRecordOf schema.now version key.now value.now
        → OnOk result (out.new.items ≡ entry_of schema.now which version.row key.now) }
    // Memory is wanted only where the entry has no room.
    ensures full { (version : Version) → IsVersion version → IsRecordOf schema.now version key.now value.now
        → OnErr result (vec_capacity out.old < length (entry_of schema.now which version.row key.now)) }
    ensures room { vec_capacity out.old ≤ vec_capacity out.new }
{
    out.clear();
    put_front(schema, key_place(schema, which), key, value, out)?;
    out.extend_from_slice(key)?;
    Ok(())
}
