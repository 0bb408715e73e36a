//! Records whose bytes are known from outside: read as rows, and spelled again.
//! Only `row_codec` is tried.

ghost use Rattle.std.specs.Prelude.{◌≡◌};

use inno_types::{Bytes, Column, Columns, Keys, Kind, Row, Schema, Value};
use row_codec::{decode, encode};
use std::alloc::{AllocError, Global};
use std::test::Fail;
use store_api::Version;

fn column(alloc: Global, kind: Kind, not_null: bool) -> Column
    ensures kind { result.kind ≡ kind }
    ensures null { result.not_null ≡ not_null }
{
    Column {
        name: Bytes::new(alloc),
        kind,
        not_null,
    }
}

/// The first column is the primary one.
fn table(alloc: Global, kinds: &[Kind]) -> Result<Schema, AllocError> {
    let mut columns = Columns::new(alloc);
    for (place, kind) in kinds.iter().enumerate() {
        columns.push(column(alloc, *kind, place == 0))?;
    }
    Ok(Schema {
        name: Bytes::new(alloc),
        columns,
        primary: 0,
        keys: Keys::new(alloc),
    })
}

fn number_at(row: &[Value], place: usize) -> Option<i64> {
    match row.get(place) {
        Some(Value::Int(number)) => Some(*number),
        _ => None,
    }
}

const RECORD: [u8; 26] = [
    1, 0, 0, 0, 0, 0, 0, 0, 7, 0, 0, 0, 0, 0, 1, 0, 64, 1, 0xff, 0xff, 0xff, 0xff, 0xff, 0xff,
    0xff, 0xff,
];

const KEY: [u8; 8] = [0x80, 0, 0, 0, 0, 0, 0, 1];

/// Whether the record is read as marked, by writer 7, with the roll pointer 65,600, of the numbers 1 and -1.
fn reads_two_numbers(alloc: Global) -> Result<bool, Fail> {
    let schema = table(alloc, &[Kind::BigInt, Kind::BigInt])?;
    let version = decode(alloc, &schema, &KEY, &RECORD)?;
    let row = version.row.as_slice();
    Ok(
        version.marked
            && version.writer == 7
            && version.pointer == 65_600
            && number_at(row, 0) == Some(1)
            && number_at(row, 1) == Some(-1),
    )
}

/// The key and the value together are the 34 bytes of a record of two numbers.
#[test]
fn two_numbers(rt: HostRuntime) -> Result<(), Fail> {
    assert!(rt; reads_two_numbers(rt.alloc())?);
    assert_eq!(rt; KEY.len() + RECORD.len(), 34);
    Ok(())
}

const NULL_AND_TEXT: [u8; 31] = [
    0, 0, 0, 0, 0, 0, 0, 0, 7, 0, 0, 0, 0, 0, 0, 0, 0, 0, 0, 0, 0, 0, 0, 0, 0, 0, 1, 2, b'a', b'b',
    0,
];

/// What is put behind the byte 9 for the row of 1, NULL and `ab`.
fn behind_nine(alloc: Global) -> Result<Bytes, Fail> {
    let number = column(alloc, Kind::BigInt, true);
    let other = column(alloc, Kind::BigInt, false);
    let text = column(alloc, Kind::VarBinary(3), false);
    let schema = Schema {
        name: Bytes::new(alloc),
        columns: Columns::from_vec(vec![in alloc; number, other, text]?),
        primary: 0,
        keys: Keys::new(alloc),
    };
    let text = Bytes::from_vec(b"ab".to_vec(alloc)?);
    let version = Version {
        row: Row::from_vec(vec![in alloc; Value::Int(1), Value::Null, Value::Text(text)]?),
        writer: 7,
        pointer: 0,
        marked: false,
    };
    let mut out = Bytes::from_vec([9].to_vec(alloc)?);
    let put = encode(&schema, &version, &mut out);
    drop(schema);
    drop(version);
    put?;
    Ok(out)
}

fn is_put_behind_nine(alloc: Global) -> Result<bool, Fail> {
    let out = behind_nine(alloc)?;
    Ok(match out.as_slice() {
        [9, record @ ..] => record == NULL_AND_TEXT.as_slice(),
        _ => false,
    })
}

fn reads_null_and_text(alloc: Global) -> Result<bool, Fail> {
    let schema = table(alloc, &[Kind::BigInt, Kind::BigInt, Kind::VarBinary(3)])?;
    let version = decode(alloc, &schema, &KEY, &NULL_AND_TEXT)?;
    Ok(match version.row.as_slice() {
        [Value::Int(number), Value::Null, Value::Text(text)] => {
            *number == 1 && text.as_slice() == b"ab".as_slice()
        }
        _ => false,
    })
}

#[test]
fn null_and_text(rt: HostRuntime) -> Result<(), Fail> {
    assert!(rt; is_put_behind_nine(rt.alloc())?);
    assert!(rt; reads_null_and_text(rt.alloc())?);
    Ok(())
}
