//! Entries of one record of three columns, of which the second is the primary one.
//! Only `secondary` is tried: no row is read and no index is met.

use inno_types::{Bytes, Column, Columns, Key, Keys, Kind, Schema};
use secondary::{entry_from, has_secondary};
use std::alloc::{AllocError, Global};
use std::test::Fail;

fn column(alloc: Global, kind: Kind) -> Column {
    Column {
        name: Bytes::new(alloc),
        kind,
        not_null: false,
    }
}

/// A text of three bytes, a number as primary column, and another number; a key on each, in this order.
fn table(alloc: Global) -> Result<Schema, AllocError> {
    let mut columns = Columns::new(alloc);
    columns.push(column(alloc, Kind::VarBinary(3)))?;
    columns.push(column(alloc, Kind::BigInt))?;
    columns.push(column(alloc, Kind::BigInt))?;
    let mut keys = Keys::new(alloc);
    for column in 0..3 {
        keys.push(Key {
            name: Bytes::new(alloc),
            column,
        })?;
    }
    Ok(Schema {
        name: Bytes::new(alloc),
        columns,
        primary: 1,
        keys,
    })
}

const KEY: [u8; 8] = [0x80, 0, 0, 0, 0, 0, 0, 1];

/// Mark, writer and roll pointer, the text `ab`, and the number -1.
const RECORD: [u8; 31] = [
    0, 0, 0, 0, 0, 0, 0, 0, 7, 0, 0, 0, 0, 0, 0, 0, 0, 1, 2, b'a', b'b', 0, 1, 0xff, 0xff, 0xff,
    0xff, 0xff, 0xff, 0xff, 0xff,
];

/// The same with NULL in place of text and number.
const NULLS: [u8; 31] = [
    0, 0, 0, 0, 0, 0, 0, 0, 7, 0, 0, 0, 0, 0, 0, 0, 0, 0, 0, 0, 0, 0, 0, 0, 0, 0, 0, 0, 0, 0, 0,
];

/// Whether there is such a key, and the record has the entry in it.
fn has_entry(alloc: Global, which: u8, value: &[u8], entry: &[u8]) -> Result<bool, Fail> {
    let schema = table(alloc)?;
    if !has_secondary(&schema, which) {
        return Ok(false);
    }
    let mut out = Vec::with_capacity(alloc, 67)?;
    entry_from(&schema, which, &KEY, value, &mut out)?;
    Ok(out.as_slice() == entry)
}

/// A key, a record, and the record's entry in that key.
const WANTED: [(u8, &[u8], &[u8]); 5] = [
    (
        1,
        &RECORD,
        &[1, b'a', b'b', 0, 2, 0x80, 0, 0, 0, 0, 0, 0, 1],
    ),
    (
        2,
        &RECORD,
        &[1, 0x80, 0, 0, 0, 0, 0, 0, 1, 0x80, 0, 0, 0, 0, 0, 0, 1],
    ),
    (
        3,
        &RECORD,
        &[
            1, 0x7f, 0xff, 0xff, 0xff, 0xff, 0xff, 0xff, 0xff, 0x80, 0, 0, 0, 0, 0, 0, 1,
        ],
    ),
    (1, &NULLS, &[0, 0, 0, 0, 0, 0x80, 0, 0, 0, 0, 0, 0, 1]),
    (
        3,
        &NULLS,
        &[0, 0, 0, 0, 0, 0, 0, 0, 0, 0x80, 0, 0, 0, 0, 0, 0, 1],
    ),
];

#[test]
fn entries_of_records(rt: HostRuntime) -> Result<(), Fail> {
    for (which, value, entry) in WANTED {
        assert!(rt; has_entry(rt.alloc(), which, value, entry)?, "key {which}");
    }
    assert!(rt; !has_entry(rt.alloc(), 4, &RECORD, &[])?);
    Ok(())
}
