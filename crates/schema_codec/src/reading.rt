//! Reading from left to right. A reader gives what is spelled at the front, and the bytes after it, as they stand in
//! specs/Reading.antt. It stops where nothing is spelled so, and where memory runs out.

ghost use Rattle.schema_codec.specs.Reading.{Gives, u8_at, u16_at, u32_at, u64_at, bytes_at, name_at, kind_at, flag_at, column_at, key_at, list_at, schema_at};

use crate::stop::Stop;
use inno_types::{Bytes, Column, Columns, Key, Keys, Kind, Listed, Schema};
use std::alloc::Global;

#[tactic(auto, unfolding(crate::specs::Reading::u8_at))]
pub fn u8_of(bytes: &[u8]) -> Result<(u8, &[u8]), Stop>
    ensures { Gives (λ x. (x.0, x.1.now)) result (u8_at bytes.now) }
{
    match bytes {
        [] => Err(Stop::Malformed),
        [first, rest @ ..] => Ok((*first, rest)),
    }
}

#[tactic(auto, unfolding(crate::specs::Reading::u16_at))]
pub fn u16_of(bytes: &[u8]) -> Result<(u16, &[u8]), Stop>
    ensures { Gives (λ x. (x.0, x.1.now)) result (u16_at bytes.now) }
{
    if bytes.len() < 2 {
        return Err(Stop::Malformed);
    }
    let (front, rest) = bytes.split_at(2);
    Ok((big_endian::u16_at(front, 0), rest))
}

#[tactic(auto, unfolding(crate::specs::Reading::u32_at))]
pub fn u32_of(bytes: &[u8]) -> Result<(u32, &[u8]), Stop>
    ensures { Gives (λ x. (x.0, x.1.now)) result (u32_at bytes.now) }
{
    if bytes.len() < 4 {
        return Err(Stop::Malformed);
    }
    let (front, rest) = bytes.split_at(4);
    Ok((big_endian::u32_at(front, 0), rest))
}

#[tactic(auto, unfolding(crate::specs::Reading::u64_at))]
pub fn u64_of(bytes: &[u8]) -> Result<(u64, &[u8]), Stop>
    ensures { Gives (λ x. (x.0, x.1.now)) result (u64_at bytes.now) }
{
    if bytes.len() < 8 {
        return Err(Stop::Malformed);
    }
    let (front, rest) = bytes.split_at(8);
    Ok((big_endian::u64_at(front, 0), rest))
}

/// So many bytes.
#[tactic(auto, unfolding(crate::specs::Reading::bytes_at))]
pub fn bytes_of(count: usize, bytes: &[u8]) -> Result<(&[u8], &[u8]), Stop>
    ensures { Gives (λ x. (x.0.now, x.1.now)) result (bytes_at count bytes.now) }
{
    if bytes.len() < count {
        return Err(Stop::Malformed);
    }
    Ok(bytes.split_at(count))
}

/// Bytes with their count before them.
#[tactic(auto, unfolding(crate::specs::Reading::name_at))]
pub fn name_of(alloc: Global, bytes: &[u8]) -> Result<(Bytes, &[u8]), Stop>
    ensures { Gives (λ x. (x.0, x.1.now)) result (name_at bytes.now) }
{
    let (len, rest) = u8_of(bytes)?;
    let (text, rest) = bytes_of(usize::from(len), rest)?;
    Ok((Bytes::from_vec(Vec::from_slice(alloc, text)?), rest))
}

#[tactic(auto, unfolding(crate::specs::Reading::kind_at))]
fn kind_of(bytes: &[u8]) -> Result<(Kind, &[u8]), Stop>
    ensures { Gives (λ x. (x.0, x.1.now)) result (kind_at bytes.now) }
{
    let (kind, rest) = u8_of(bytes)?;
    let (size, rest) = u8_of(rest)?;
    match kind {
        1 if size == 0 => Ok((Kind::BigInt, rest)),
        2 => Ok((Kind::VarBinary(size), rest)),
        _ => Err(Stop::Malformed),
    }
}

#[tactic(auto, unfolding(crate::specs::Reading::flag_at))]
fn flag_of(bytes: &[u8]) -> Result<(bool, &[u8]), Stop>
    ensures { Gives (λ x. (x.0, x.1.now)) result (flag_at bytes.now) }
{
    let (flag, rest) = u8_of(bytes)?;
    match flag {
        0 => Ok((false, rest)),
        1 => Ok((true, rest)),
        _ => Err(Stop::Malformed),
    }
}

#[tactic(auto, unfolding(crate::specs::Reading::column_at))]
fn column_of(alloc: Global, bytes: &[u8]) -> Result<(Column, &[u8]), Stop>
    ensures { Gives (λ x. (x.0, x.1.now)) result (column_at bytes.now) }
{
    let (name, rest) = name_of(alloc, bytes)?;
    let (kind, rest) = kind_of(rest)?;
    let (not_null, rest) = flag_of(rest)?;
    let column = Column {
        name,
        kind,
        not_null,
    };
    Ok((column, rest))
}

#[tactic(auto, unfolding(crate::specs::Reading::key_at))]
fn key_of(alloc: Global, bytes: &[u8]) -> Result<(Key, &[u8]), Stop>
    ensures { Gives (λ x. (x.0, x.1.now)) result (key_at bytes.now) }
{
    let (name, rest) = name_of(alloc, bytes)?;
    let (column, rest) = u8_of(rest)?;
    Ok((Key { name, column }, rest))
}

fn columns_of(alloc: Global, count: u8, bytes: &[u8]) -> Result<(Columns, &[u8]), Stop>
    ensures { Gives (λ x. (x.0, x.1.now)) result (list_at column_at count bytes.now) }
{
    let mut items = Vec::new(alloc);
    let mut rest = bytes;
    for _ in 0..count {
        let (item, after) = column_of(alloc, rest)?;
        items.push(item)?;
        rest = after;
    }
    Ok((Listed::from_vec(items), rest))
}

fn keys_of(alloc: Global, count: u8, bytes: &[u8]) -> Result<(Keys, &[u8]), Stop>
    ensures { Gives (λ x. (x.0, x.1.now)) result (list_at key_at count bytes.now) }
{
    let mut items = Vec::new(alloc);
    let mut rest = bytes;
    for _ in 0..count {
        let (item, after) = key_of(alloc, rest)?;
        items.push(item)?;
        rest = after;
    }
    Ok((Listed::from_vec(items), rest))
}

/// Reads a schema at the front of the bytes.
#[tactic(auto, unfolding(crate::specs::Reading::schema_at))]
pub fn schema_of(alloc: Global, bytes: &[u8]) -> Result<(Schema, &[u8]), Stop>
    ensures { Gives (λ x. (x.0, x.1.now)) result (schema_at bytes.now) }
{
    let (name, rest) = name_of(alloc, bytes)?;
    let (count, rest) = u8_of(rest)?;
    let (columns, rest) = columns_of(alloc, count, rest)?;
    let (primary, rest) = u8_of(rest)?;
    let (count, rest) = u8_of(rest)?;
    let (keys, rest) = keys_of(alloc, count, rest)?;
    let schema = Schema {
        name,
        columns,
        primary,
        keys,
    };
    Ok((schema, rest))
}
