//! Spelling groups at the end of a vector. Memory may run out only past the vector's capacity, so that a caller who
//! has reserved room is never refused. Numbers, byte strings and schemas are spelled by `schema_codec`.

ghost use Rattle.std.specs.Prelude.{◌≡◌, ◌+◌, ◌^◌, ◌<◌, ◌≤◌, ◌∷◌, ◌++◌, ℕ, List, length, vec_len, vec_capacity, All, OnOk, OnErr};
ghost use Rattle.std.specs.List.{flat_map};
ghost use Rattle.schema_codec.specs.Numbers.{u16_bytes, u32_bytes};
ghost use Rattle.schema_codec.specs.Schema.{counted, IsCounted, IsSchema};
ghost use Rattle.log_format.specs.Group.{value_bytes, IsValue, record_bytes, IsRecord, AreRecords, IsSpelled, body, group_bytes, IsGroup};
ghost use Rattle.log_format.specs.declared.group.Record.{Record as RecordValue};
ghost use Rattle.log_format.specs.declared.group.Record.TheVariants.{RowPut, RowRemove, NewTable};

use crate::group::{Group, Record, Records};
use big_endian::u32_bytes;
use inno_types::{Bytes, Schema, Value};
use schema_codec::{put_name, put_schema, put_u16, put_u32, put_u64};
use std::alloc::{AllocError, Global};
use std::mem;
use store_api::NoMemory;

#[tactic(auto, using(schema_codec::proofs::Lengths::lengths))]
fn put_value(value: &Value, out: &mut Vec<u8>) -> Result<(), AllocError>
    requires { IsValue value.now }
    ensures ok { OnOk result (out.new.items ≡ out.old.items ++ value_bytes value.now) }
    ensures len { OnOk result (vec_len out.new ≡ vec_len out.old + length (value_bytes value.now)) }
    ensures grows { vec_capacity out.old ≤ vec_capacity out.new }
    ensures full { OnErr result (vec_capacity out.old < vec_len out.old + length (value_bytes value.now)) }
{
    match value {
        Value::Null => {
            out.push(0)?;
            Ok(())
        }
        Value::Int(number) => {
            out.push(1)?;
            put_u64(number.cast_unsigned(), out)
        }
        Value::Text(text) => {
            out.push(2)?;
            put_name(text.as_slice(), out)
        }
    }
}

/// How many, and then each of them.
fn put_values(items: &[Value], out: &mut Vec<u8>) -> Result<(), AllocError>
    requires { IsCounted IsValue items.now }
    ensures ok { OnOk result (out.new.items ≡ out.old.items ++ counted value_bytes items.now) }
    ensures len { OnOk result (vec_len out.new ≡ vec_len out.old + length (counted value_bytes items.now)) }
    ensures grows { vec_capacity out.old ≤ vec_capacity out.new }
    ensures full { OnErr result (vec_capacity out.old < vec_len out.old + length (counted value_bytes items.now)) }
{
    out.push(items.len() as u8)?;
    for item in items {
        put_value(item, out)?;
    }
    Ok(())
}

#[tactic(auto, using(schema_codec::proofs::Lengths::lengths))]
fn put_page_record(page: u32, at: u16, bytes: &[u8], out: &mut Vec<u8>) -> Result<(), AllocError>
    requires { length bytes.now ≤ 4096 }
    ensures ok { OnOk result (out.new.items ≡ out.old.items ++ (1 ∷ u32_bytes page ++ u16_bytes at ++ u16_bytes (length bytes.now) ++ bytes.now)) }
    ensures len { OnOk result (vec_len out.new ≡ vec_len out.old + (9 + length bytes.now)) }
    ensures grows { vec_capacity out.old ≤ vec_capacity out.new }
    ensures full { OnErr result (vec_capacity out.old < vec_len out.old + (9 + length bytes.now)) }
{
    out.push(1)?;
    put_u32(page, out)?;
    put_u16(at, out)?;
    put_u16(bytes.len() as u16, out)?;
    out.extend_from_slice(bytes)
}

/// Spells the record of a row that is put at the end.
pub fn put_row(table: u8, row: &[Value], out: &mut Vec<u8>) -> Result<(), AllocError>
    requires { IsCounted IsValue row.now }
    ensures ok { OnOk result (out.new.items ≡ out.old.items ++ record_bytes (RowPut table row.now)) }
    ensures len { OnOk result (vec_len out.new ≡ vec_len out.old + length (record_bytes (RowPut table row.now))) }
    ensures grows { vec_capacity out.old ≤ vec_capacity out.new }
    ensures full { OnErr result (vec_capacity out.old < vec_len out.old + length (record_bytes (RowPut table row.now))) }
{
    out.extend_from_slice(&[3, 1, table])?;
    put_values(row, out)
}

/// Spells the record of a removed row at the end.
pub fn put_removal(table: u8, key: &Value, out: &mut Vec<u8>) -> Result<(), AllocError>
    requires { IsValue key.now }
    ensures ok { OnOk result (out.new.items ≡ out.old.items ++ record_bytes (RowRemove table key.now)) }
    ensures len { OnOk result (vec_len out.new ≡ vec_len out.old + length (record_bytes (RowRemove table key.now))) }
    ensures grows { vec_capacity out.old ≤ vec_capacity out.new }
    ensures full { OnErr result (vec_capacity out.old < vec_len out.old + length (record_bytes (RowRemove table key.now))) }
{
    out.extend_from_slice(&[3, 2, table, 1])?;
    put_value(key, out)
}

/// Spells the record of a new table at the end.
pub fn put_table(schema: &Schema, out: &mut Vec<u8>) -> Result<(), AllocError>
    requires { IsSchema schema.now }
    ensures ok { OnOk result (out.new.items ≡ out.old.items ++ record_bytes (NewTable schema.now)) }
    ensures len { OnOk result (vec_len out.new ≡ vec_len out.old + length (record_bytes (NewTable schema.now))) }
    ensures grows { vec_capacity out.old ≤ vec_capacity out.new }
    ensures full { OnErr result (vec_capacity out.old < vec_len out.old + length (record_bytes (NewTable schema.now))) }
{
    out.extend_from_slice(&[3, 3])?;
    put_schema(schema, out)
}

#[tactic(auto, using(schema_codec::proofs::Lengths::lengths))]
fn put_record(change: &Record, out: &mut Vec<u8>) -> Result<(), AllocError>
    requires { IsRecord change.now }
    ensures ok { OnOk result (out.new.items ≡ out.old.items ++ record_bytes change.now) }
    ensures len { OnOk result (vec_len out.new ≡ vec_len out.old + length (record_bytes change.now)) }
    ensures grows { vec_capacity out.old ≤ vec_capacity out.new }
    ensures full { OnErr result (vec_capacity out.old < vec_len out.old + length (record_bytes change.now)) }
{
    match change {
        Record::Put { page, at, bytes } => { put_page_record(*page, *at, bytes.as_slice(), out) }
        Record::Fresh { page } => {
            out.push(2)?;
            put_u32(*page, out)
        }
        Record::RowPut { table, row } => { put_row(*table, row.as_slice(), out) }
        Record::RowRemove { table, key } => { put_removal(*table, key, out) }
        Record::NewTable { schema } => { put_table(schema, out) }
    }
}

fn put_records(items: &[Record], out: &mut Vec<u8>) -> Result<(), AllocError>
    requires { All IsRecord items.now }
    ensures ok { OnOk result (out.new.items ≡ out.old.items ++ flat_map record_bytes items.now) }
    ensures len { OnOk result (vec_len out.new ≡ vec_len out.old + length (flat_map record_bytes items.now)) }
    ensures grows { vec_capacity out.old ≤ vec_capacity out.new }
    ensures full { OnErr result (vec_capacity out.old < vec_len out.old + length (flat_map record_bytes items.now)) }
{
    for item in items {
        put_record(item, out)?;
    }
    Ok(())
}

#[tactic(auto, unfolding(crate::specs::Group::body), using(schema_codec::proofs::Lengths::lengths))]
fn put_body(lsn: u64, records: &Records, out: &mut Vec<u8>) -> Result<(), AllocError>
    requires { AreRecords records.now }
    ensures ok { OnOk result (out.new.items ≡ out.old.items ++ body (record { lsn = lsn; records = records.now })) }
    ensures len { OnOk result (vec_len out.new ≡ vec_len out.old + length (body (record { lsn = lsn; records = records.now }))) }
    ensures grows { vec_capacity out.old ≤ vec_capacity out.new }
    ensures full { OnErr result (vec_capacity out.old < vec_len out.old + length (body (record { lsn = lsn; records = records.now }))) }
{
    put_u64(lsn, out)?;
    put_u16(records.as_slice().len() as u16, out)?;
    put_records(records.as_slice(), out)
}

/// Spells records at the end as the group of a log sequence number. A group of 4 GiB or more has no spelling, and
/// counts as one for which there is no memory. After an `Err` anything may stand behind what stood there.
#[tactic(auto, unfolding(crate::specs::Group::group_bytes, schema_codec::specs::Numbers::u32_bytes), using(schema_codec::proofs::Lengths::lengths))]
pub fn put_group_as(lsn: u64, records: &Records, out: &mut Vec<u8>) -> Result<(), AllocError>
    requires { AreRecords records.now }
    ensures ok { OnOk result (out.new.items ≡ out.old.items ++ group_bytes (record { lsn = lsn; records = records.now })) }
    ensures group { OnOk result (IsGroup (record { lsn = lsn; records = records.now })) }
    ensures grows { vec_capacity out.old ≤ vec_capacity out.new }
    ensures full { (room : ℕ) → room < 2 ^ 32 → vec_len out.old + room ≤ vec_capacity out.old →
        OnErr result (room < length (group_bytes (record { lsn = lsn; records = records.now }))) }
{
    let start = out.len();
    out.extend_from_slice(&[0; 4])?;
    put_body(lsn, records, out)?;
    let Ok(len) = u32::try_from(out.len() - start - 4) else {
        return Err(AllocError);
    };
    out[start..start + 4].copy_from_slice(&u32_bytes(len));
    Ok(())
}

/// Spells at the end what stands before the records of a group whose records are spelled already, so many of them. The
/// records may stay where they are.
#[tactic(auto, unfolding(crate::specs::Group::group_bytes, crate::specs::Group::body), using(schema_codec::proofs::Lengths::lengths))]
pub fn put_head_as(
    lsn: u64,
    count: u16,
    records: &[u8],
    out: &mut Vec<u8>,
) -> Result<(), AllocError>
    requires { (rs : List RecordValue) × IsSpelled rs count records.now }
    ensures ok { OnOk result ((rs : List RecordValue) → IsSpelled rs count records.now
        → out.new.items ++ records.now ≡ out.old.items ++ group_bytes (record { lsn = lsn; records = rs })) }
    ensures group { OnOk result ((rs : List RecordValue) → IsSpelled rs count records.now → IsGroup (record { lsn = lsn; records = rs })) }
    ensures grows { vec_capacity out.old ≤ vec_capacity out.new }
    ensures full { (room : ℕ) → room < 2 ^ 32 → vec_len out.old + room ≤ vec_capacity out.old →
        OnErr result (room < 14 + length records.now) }
{
    let Ok(len) = u32::try_from(records.len() + 10) else {
        return Err(AllocError);
    };
    put_u32(len, out)?;
    put_u64(lsn, out)?;
    put_u16(count, out)
}

/// Spells a group at the end. An `Err` changes nothing.
pub fn put_group(alloc: Global, group: &Group, out: &mut Bytes) -> Result<(), NoMemory>
    requires { AreRecords group.now.records }
    ensures ok { OnOk result (out.new ≡ out.old ++ group_bytes group.now) }
    ensures group { OnOk result (IsGroup group.now) }
    ensures err { OnErr result (out.new ≡ out.old) }
{
    let mut spelled = Vec::new(alloc);
    put_group_as(group.lsn, &group.records, &mut spelled)?;
    let mut bytes = mem::replace(out, Bytes::new(alloc)).into_vec();
    let outcome = bytes.extend_from_slice(&spelled);
    *out = Bytes::from_vec(bytes);
    outcome?;
    Ok(())
}
