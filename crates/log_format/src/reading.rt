//! Reading groups from left to right. A reader gives what is spelled at the front, and the bytes after it.
//! Numbers, byte strings and schemas are read by `schema_codec`.

ghost use Rattle.schema_codec.specs.Reading.{Gives, list_at};
ghost use Rattle.log_format.specs.Reading.{value_at, put_at, fresh_at, row_put_at, row_remove_at, new_table_at, change_at, record_at, body_at, group_at};

use crate::group::{Group, Record, Records};
use inno_types::{Bytes, Listed, Row, Value};
use schema_codec::{Stop, bytes_of, name_of, schema_of, u8_of, u16_of, u32_of, u64_of};
use std::alloc::Global;

#[tactic(auto, unfolding(crate::specs::Reading::value_at))]
fn value_of(alloc: Global, bytes: &[u8]) -> Result<(Value, &[u8]), Stop>
    ensures { Gives (λ x. (x.0, x.1.now)) result (value_at bytes.now) }
{
    let (kind, rest) = u8_of(bytes)?;
    match kind {
        0 => Ok((Value::Null, rest)),
        1 => {
            let (number, rest) = u64_of(rest)?;
            Ok((Value::Int(number.cast_signed()), rest))
        }
        2 => {
            let (text, rest) = name_of(alloc, rest)?;
            Ok((Value::Text(text), rest))
        }
        _ => Err(Stop::Malformed),
    }
}

fn values_of(alloc: Global, count: u8, bytes: &[u8]) -> Result<(Row, &[u8]), Stop>
    ensures { Gives (λ x. (x.0, x.1.now)) result (list_at value_at count bytes.now) }
{
    let mut items = Vec::new(alloc);
    let mut rest = bytes;
    for _ in 0..count {
        let (item, after) = value_of(alloc, rest)?;
        items.push(item)?;
        rest = after;
    }
    Ok((Listed::from_vec(items), rest))
}

#[tactic(auto, unfolding(crate::specs::Reading::put_at))]
fn put_of(alloc: Global, bytes: &[u8]) -> Result<(Record, &[u8]), Stop>
    ensures { Gives (λ x. (x.0, x.1.now)) result (put_at bytes.now) }
{
    let (page, rest) = u32_of(bytes)?;
    let (at, rest) = u16_of(rest)?;
    let (len, rest) = u16_of(rest)?;
    let (text, rest) = bytes_of(usize::from(len), rest)?;
    if at < 20 || u32::from(at) + u32::from(len) > 4096 {
        return Err(Stop::Malformed);
    }
    let bytes = Bytes::from_vec(Vec::from_slice(alloc, text)?);
    Ok((Record::Put { page, at, bytes }, rest))
}

#[tactic(auto, unfolding(crate::specs::Reading::fresh_at))]
fn fresh_of(bytes: &[u8]) -> Result<(Record, &[u8]), Stop>
    ensures { Gives (λ x. (x.0, x.1.now)) result (fresh_at bytes.now) }
{
    let (page, rest) = u32_of(bytes)?;
    Ok((Record::Fresh { page }, rest))
}

#[tactic(auto, unfolding(crate::specs::Reading::row_put_at))]
fn row_put_of(alloc: Global, bytes: &[u8]) -> Result<(Record, &[u8]), Stop>
    ensures { Gives (λ x. (x.0, x.1.now)) result (row_put_at bytes.now) }
{
    let (table, rest) = u8_of(bytes)?;
    let (count, rest) = u8_of(rest)?;
    let (row, rest) = values_of(alloc, count, rest)?;
    Ok((Record::RowPut { table, row }, rest))
}

#[tactic(auto, unfolding(crate::specs::Reading::row_remove_at))]
fn row_remove_of(alloc: Global, bytes: &[u8]) -> Result<(Record, &[u8]), Stop>
    ensures { Gives (λ x. (x.0, x.1.now)) result (row_remove_at bytes.now) }
{
    let (table, rest) = u8_of(bytes)?;
    let (count, rest) = u8_of(rest)?;
    let (key, rest) = value_of(alloc, rest)?;
    if count == 1 {
        return Ok((Record::RowRemove { table, key }, rest));
    }
    Err(Stop::Malformed)
}

#[tactic(auto, unfolding(crate::specs::Reading::new_table_at))]
fn new_table_of(alloc: Global, bytes: &[u8]) -> Result<(Record, &[u8]), Stop>
    ensures { Gives (λ x. (x.0, x.1.now)) result (new_table_at bytes.now) }
{
    let (schema, rest) = schema_of(alloc, bytes)?;
    Ok((Record::NewTable { schema }, rest))
}

/// A change before there are pages.
#[tactic(auto, unfolding(crate::specs::Reading::change_at))]
fn change_of(alloc: Global, bytes: &[u8]) -> Result<(Record, &[u8]), Stop>
    ensures { Gives (λ x. (x.0, x.1.now)) result (change_at bytes.now) }
{
    let (kind, rest) = u8_of(bytes)?;
    match kind {
        1 => row_put_of(alloc, rest),
        2 => row_remove_of(alloc, rest),
        3 => new_table_of(alloc, rest),
        _ => Err(Stop::Malformed),
    }
}

#[tactic(auto, unfolding(crate::specs::Reading::record_at))]
fn record_of(alloc: Global, bytes: &[u8]) -> Result<(Record, &[u8]), Stop>
    ensures { Gives (λ x. (x.0, x.1.now)) result (record_at bytes.now) }
{
    let (kind, rest) = u8_of(bytes)?;
    match kind {
        1 => put_of(alloc, rest),
        2 => fresh_of(rest),
        3 => change_of(alloc, rest),
        _ => Err(Stop::Malformed),
    }
}

fn records_of(alloc: Global, count: u16, bytes: &[u8]) -> Result<(Records, &[u8]), Stop>
    ensures { Gives (λ x. (x.0, x.1.now)) result (list_at record_at count bytes.now) }
{
    let mut items = Vec::new(alloc);
    let mut rest = bytes;
    for _ in 0..count {
        let (item, after) = record_of(alloc, rest)?;
        items.push(item)?;
        rest = after;
    }
    Ok((Listed::from_vec(items), rest))
}

#[tactic(auto, unfolding(crate::specs::Reading::body_at))]
fn body_of(alloc: Global, bytes: &[u8]) -> Result<Group, Stop>
    ensures { Gives (λ x. x) result (body_at bytes.now) }
{
    let (lsn, rest) = u64_of(bytes)?;
    let (count, rest) = u16_of(rest)?;
    let (records, rest) = records_of(alloc, count, rest)?;
    if rest.is_empty() {
        return Ok(Group { lsn, records });
    }
    Err(Stop::Malformed)
}

/// Reads a group at the front of the bytes.
#[tactic(auto, unfolding(crate::specs::Reading::group_at))]
pub fn group_of(alloc: Global, bytes: &[u8]) -> Result<(Group, &[u8]), Stop>
    ensures { Gives (λ x. (x.0, x.1.now)) result (group_at bytes.now) }
{
    let (len, rest) = u32_of(bytes)?;
    let (text, rest) = bytes_of(len as usize, rest)?;
    let group = body_of(alloc, text)?;
    Ok((group, rest))
}
