//! Groups with their bytes, as they were worked out by hand.
//! Only `log_format` spells here; no log is kept and no disk met.

use inno_types::{Bytes, Column, Key, Kind, Listed, Schema, Value};
use log_format::{Group, Record, put_group};
use std::alloc::{AllocError, Global};
use std::test::Fail;
use store_api::NoMemory;

fn text(alloc: Global, of: &[u8]) -> Result<Bytes, AllocError> {
    Ok(Bytes::from_vec(Vec::from_slice(alloc, of)?))
}

fn group(alloc: Global, lsn: u64, record: Record) -> Result<Group, AllocError> {
    let records = Listed::from_vec(vec![in alloc; record]?);
    Ok(Group { lsn, records })
}

fn row_change(alloc: Global) -> Result<Record, AllocError> {
    let text = Value::Text(text(alloc, b"ab")?);
    let row = Listed::from_vec(vec![in alloc; Value::Int(-1), text, Value::Null]?);
    Ok(Record::RowPut { table: 2, row })
}

fn new_table(alloc: Global) -> Result<Record, AllocError> {
    let column = Column {
        name: text(alloc, b"c")?,
        kind: Kind::VarBinary(9),
        not_null: true,
    };
    let key = Key {
        name: text(alloc, b"k")?,
        column: 0,
    };
    Ok(Record::NewTable {
        schema: Schema {
            name: text(alloc, b"t")?,
            columns: Listed::from_vec(vec![in alloc; column]?),
            primary: 0,
            keys: Listed::from_vec(vec![in alloc; key]?),
        },
    })
}

/// The bytes of a group that fits.
fn spelled(alloc: Global, group: &Group) -> Result<Bytes, NoMemory> {
    let mut out = Bytes::new(alloc);
    if group.fits() {
        put_group(alloc, group, &mut out)?;
    }
    Ok(out)
}

/// Whether the group 5 of this record is spelled so.
fn is_spelled(
    alloc: Global,
    record: Result<Record, AllocError>,
    want: &[u8],
) -> Result<bool, NoMemory> {
    let group = group(alloc, 5, record?)?;
    let spelled = spelled(alloc, &group);
    drop(group);
    Ok(spelled?.as_slice() == want)
}

fn put_of_xyz(alloc: Global) -> Result<Record, AllocError> {
    let bytes = text(alloc, b"xyz")?;
    Ok(Record::Put {
        page: 7,
        at: 20,
        bytes,
    })
}

fn row_removal() -> Record {
    Record::RowRemove {
        table: 2,
        key: Value::Int(3),
    }
}

#[test]
fn groups_are_spelled_as_worked_out(rt: HostRuntime) -> Result<(), Fail> {
    let fresh = b"\0\0\0\x0f\0\0\0\0\0\0\0\x05\0\x01\x02\0\0\x01\x02";
    let put = b"\0\0\0\x16\0\0\0\0\0\0\0\x05\0\x01\x01\0\0\0\x07\0\x14\0\x03xyz";
    let row =
        b"\0\0\0\x1c\0\0\0\0\0\0\0\x05\0\x01\x03\x01\x02\x03\x01\xff\xff\xff\xff\xff\xff\xff\xff\x02\x02ab\0";
    let removal = b"\0\0\0\x17\0\0\0\0\0\0\0\x05\0\x01\x03\x02\x02\x01\x01\0\0\0\0\0\0\0\x03";
    let table =
        b"\0\0\0\x19\0\0\0\0\0\0\0\x05\0\x01\x03\x03\x01t\x01\x01c\x02\x09\x01\0\x01\x01k\0";
    let alloc = rt.alloc();
    assert!(rt; is_spelled(alloc, Ok(Record::Fresh { page: 258 }), fresh)?);
    assert!(rt; is_spelled(alloc, put_of_xyz(alloc), put)?);
    assert!(rt; is_spelled(alloc, row_change(alloc), row)?);
    assert!(rt; is_spelled(alloc, Ok(row_removal()), removal)?);
    assert!(rt; is_spelled(alloc, new_table(alloc), table)?);
    Ok(())
}
