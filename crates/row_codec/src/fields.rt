//! Fields: the values of single columns within a record, each with its flag in front.
//! Writers append to a vector; on an `Err` a part of their bytes may stand there.

ghost use Rattle.std.specs.Prelude.{◌≡◌, ℕ, List, ◌+◌, ◌≤◌, ◌∷◌, ◌++◌, length, take, drop, All, IfOk, OnOk, Err};
ghost use Rattle.inno_types.specs.declared.value.Value.{Value};
ghost use Rattle.key_codec.specs.Keys.{IsOfKind, Has64Bits, padded, key_width};
ghost use Rattle.key_codec.specs.Numbers.{u64_bytes};
ghost use Rattle.row_codec.specs.Reads.{Reads};
ghost use Rattle.row_codec.specs.Rows.{FitsColumn, IsRowOf, body_code, field_code, fields_code};

use crate::refused::RowBad;
use inno_types::{Bytes, Column, Kind, Value};
use key_codec::{key_len, padded_text, put_padded, put_u64, u64_of};
use std::alloc::{AllocError, Global};

const NULL: u8 = 0;

const PRESENT: u8 = 1;

/// The items before a place, and those behind it.
pub fn around<T>(items: &[T], place: u8) -> (&[T], &[T])
    ensures before { result.0.now ≡ take place items.now }
    ensures behind { result.1.now ≡ drop (place + 1) items.now }
{
    let before = usize::from(place).min(items.len());
    let behind = (usize::from(place) + 1).min(items.len());
    (&items[..before], &items[behind..])
}

/// Appends what stands behind the flag of a field that isn't NULL.
fn put_body(value: &Value, kind: Kind, out: &mut Vec<u8>) -> Result<(), AllocError>
    requires { IsOfKind kind value.now }
    ensures ok { OnOk result (out.new.items ≡ out.old.items ++ body_code kind value.now) }
{
    match (value, kind) {
        (Value::Int(number), Kind::BigInt) => put_u64(number.cast_unsigned(), out),
        (Value::Text(text), Kind::VarBinary(size)) => {
            out.push(text.len() as u8)?;
            put_padded(text.as_slice(), size, out)
        }
        _ => unreachable!(),
    }
}

/// Appends a field.
fn put_field(column: &Column, value: &Value, out: &mut Vec<u8>) -> Result<(), AllocError>
    requires { FitsColumn column.now value.now }
    ensures ok { OnOk result (out.new.items ≡ out.old.items ++ field_code column.now.kind value.now) }
{
    match value {
        Value::Null => {
            let end = out.len();
            out.resize(end + 1 + key_len(column.kind), NULL)
        }
        present => {
            out.push(PRESENT)?;
            put_body(present, column.kind, out)
        }
    }
}

/// Appends the fields of a row, one for each column.
pub fn put_fields(columns: &[Column], row: &[Value], out: &mut Vec<u8>) -> Result<(), AllocError>
    requires { IsRowOf columns.now row.now }
    ensures ok { OnOk result (out.new.items ≡ out.old.items ++ fields_code columns.now row.now) }
{
    for (column, value) in columns.iter().zip(row) {
        put_field(column, value, out)?;
    }
    Ok(())
}

/// The text whose length and padding these bytes are.
fn text_of(alloc: Global, bytes: &[u8], size: u8) -> Result<Value, RowBad>
    ensures found { IfOk result (λ value. IsOfKind (Kind.VarBinary size) value
        × (bytes.now ≡ body_code (Kind.VarBinary size) value)) }
    ensures range { IfOk result Has64Bits }
    ensures shape { result ≡ Err RowBad.Shape → (text : List ℕ) → length text ≤ size
        → bytes.now ≡ length text ∷ padded size text → ⊥ }
{
    let Some((len, front)) = bytes.split_first() else {
        return Err(RowBad::Shape);
    };
    if front.len() != usize::from(size) {
        return Err(RowBad::Shape);
    }
    let Some(text) = padded_text(front, *len) else {
        return Err(RowBad::Shape);
    };
    Ok(Value::Text(Bytes::from_vec(Vec::from_slice(alloc, text)?)))
}

/// The value that stands behind the flag of a field that isn't NULL.
fn present_of(alloc: Global, bytes: &[u8], kind: Kind) -> Result<Value, RowBad>
    ensures found { IfOk result (λ value. IsOfKind kind value × (bytes.now ≡ body_code kind value)) }
    ensures range { IfOk result Has64Bits }
    ensures shape { result ≡ Err RowBad.Shape → (value : Value) → IsOfKind kind value
        → bytes.now ≡ body_code kind value → ⊥ }
{
    match kind {
        Kind::BigInt => {
            let Some(number) = u64_of(bytes) else {
                return Err(RowBad::Shape);
            };
            Ok(Value::Int(number.cast_signed()))
        }
        Kind::VarBinary(size) => text_of(alloc, bytes, size),
    }
}

/// The value of a field of which these are all bytes.
fn whole_field(alloc: Global, column: &Column, flag: u8, body: &[u8]) -> Result<Value, RowBad>
    requires { length body.now ≡ key_width column.now.kind }
    ensures found { IfOk result (λ value. FitsColumn column.now value
        × (flag ∷ body.now ≡ field_code column.now.kind value)) }
    ensures range { IfOk result Has64Bits }
    ensures shape { result ≡ Err RowBad.Shape → (value : Value) → FitsColumn column.now value
        → flag ∷ body.now ≡ field_code column.now.kind value → ⊥ }
{
    if flag == PRESENT {
        return present_of(alloc, body, column.kind);
    }
    if flag == NULL && !column.not_null && body.iter().all(|byte| *byte == 0) {
        return Ok(Value::Null);
    }
    Err(RowBad::Shape)
}

/// The value of the field at the front of the bytes, and the bytes behind it.
fn field_of<'a>(
    alloc: Global,
    column: &Column,
    bytes: &'a [u8],
) -> Result<(Value, &'a [u8]), RowBad>
    ensures found { IfOk result (λ read. FitsColumn column.now read.0
        × (bytes.now ≡ field_code column.now.kind read.0 ++ read.1.now)) }
    ensures range { IfOk result (λ read. Has64Bits read.0) }
    ensures shape { result ≡ Err RowBad.Shape → (value : Value) (rest : List ℕ)
        → FitsColumn column.now value → bytes.now ≡ field_code column.now.kind value ++ rest
        → ⊥ }
{
    let Some((flag, behind)) = bytes.split_first() else {
        return Err(RowBad::Shape);
    };
    let len = key_len(column.kind);
    if behind.len() < len {
        return Err(RowBad::Shape);
    }
    let (body, rest) = behind.split_at(len);
    let value = whole_field(alloc, column, *flag, body)?;
    Ok((value, rest))
}

/// Appends the values of the fields at the front of the bytes to a row, and gives the bytes behind them.
pub fn fields_of<'a>(
    alloc: Global,
    columns: &[Column],
    bytes: &'a [u8],
    row: &mut Vec<Value>,
) -> Result<&'a [u8], RowBad>
    ensures found { IfOk result (λ rest. (values : List Value) × (row.new.items ≡ row.old.items ++ values)
        × Reads columns.now bytes.now values rest.now) }
    ensures range { All Has64Bits row.old.items → All Has64Bits row.new.items }
    ensures shape { result ≡ Err RowBad.Shape → (values : List Value) (rest : List ℕ)
        → Reads columns.now bytes.now values rest → ⊥ }
{
    let mut rest = bytes;
    for column in columns {
        let (value, behind) = field_of(alloc, column, rest)?;
        row.push(value)?;
        rest = behind;
    }
    Ok(rest)
}
