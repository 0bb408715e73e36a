//! Spelling a schema at the end of a vector. Memory may run out only past the vector's capacity, so that a caller who
//! has reserved room is never refused.

ghost use Rattle.std.specs.Prelude.{◌≡◌, ◌+◌, ◌<◌, ◌≤◌, [], ◌∷◌, ◌++◌, length, vec_len, vec_capacity, OnOk, OnErr};
ghost use Rattle.schema_codec.specs.Schema.{counted, IsCounted, name_bytes, IsName, kind_bytes, flag_bytes, column_bytes, IsColumn, key_bytes, IsKey, schema_bytes, IsSchema};

use inno_types::{Column, Key, Kind, Schema};
use std::alloc::AllocError;

/// How many bytes, and then the bytes.
#[tactic(auto, using(crate::proofs::Lengths::lengths))]
pub fn put_name(name: &[u8], out: &mut Vec<u8>) -> Result<(), AllocError>
    requires { IsName name.now }
    ensures ok { OnOk result (out.new.items ≡ out.old.items ++ name_bytes name.now) }
    ensures len { OnOk result (vec_len out.new ≡ vec_len out.old + length (name_bytes name.now)) }
    ensures grows { vec_capacity out.old ≤ vec_capacity out.new }
    ensures full { OnErr result (vec_capacity out.old < vec_len out.old + length (name_bytes name.now)) }
{
    out.push(name.len() as u8)?;
    out.extend_from_slice(name)
}

#[tactic(auto, using(crate::proofs::Lengths::lengths))]
fn put_column(column: &Column, out: &mut Vec<u8>) -> Result<(), AllocError>
    requires { IsColumn column.now }
    ensures ok { OnOk result (out.new.items ≡ out.old.items ++ column_bytes column.now) }
    ensures len { OnOk result (vec_len out.new ≡ vec_len out.old + length (column_bytes column.now)) }
    ensures grows { vec_capacity out.old ≤ vec_capacity out.new }
    ensures full { OnErr result (vec_capacity out.old < vec_len out.old + length (column_bytes column.now)) }
{
    put_name(column.name.as_slice(), out)?;
    out.extend_from_slice(&kind_in_bytes(column.kind))?;
    out.push(flag_in_bytes(column.not_null))?;
    Ok(())
}

fn kind_in_bytes(kind: Kind) -> [u8; 2]
    ensures { result ≡ kind_bytes kind }
{
    match kind {
        Kind::BigInt => [1, 0],
        Kind::VarBinary(size) => [2, size],
    }
}

fn flag_in_bytes(flag: bool) -> u8
    ensures { flag_bytes flag ≡ result ∷ [] }
{
    if flag { 1 } else { 0 }
}

#[tactic(auto, using(crate::proofs::Lengths::lengths))]
fn put_key(key: &Key, out: &mut Vec<u8>) -> Result<(), AllocError>
    requires { IsKey key.now }
    ensures ok { OnOk result (out.new.items ≡ out.old.items ++ key_bytes key.now) }
    ensures len { OnOk result (vec_len out.new ≡ vec_len out.old + length (key_bytes key.now)) }
    ensures grows { vec_capacity out.old ≤ vec_capacity out.new }
    ensures full { OnErr result (vec_capacity out.old < vec_len out.old + length (key_bytes key.now)) }
{
    put_name(key.name.as_slice(), out)?;
    out.push(key.column)?;
    Ok(())
}

/// How many, and then each of them.
fn put_columns(items: &[Column], out: &mut Vec<u8>) -> Result<(), AllocError>
    requires { IsCounted IsColumn items.now }
    ensures ok { OnOk result (out.new.items ≡ out.old.items ++ counted column_bytes items.now) }
    ensures len { OnOk result (vec_len out.new ≡ vec_len out.old + length (counted column_bytes items.now)) }
    ensures grows { vec_capacity out.old ≤ vec_capacity out.new }
    ensures full { OnErr result (vec_capacity out.old < vec_len out.old + length (counted column_bytes items.now)) }
{
    out.push(items.len() as u8)?;
    for item in items {
        put_column(item, out)?;
    }
    Ok(())
}

/// How many, and then each of them.
fn put_keys(items: &[Key], out: &mut Vec<u8>) -> Result<(), AllocError>
    requires { IsCounted IsKey items.now }
    ensures ok { OnOk result (out.new.items ≡ out.old.items ++ counted key_bytes items.now) }
    ensures len { OnOk result (vec_len out.new ≡ vec_len out.old + length (counted key_bytes items.now)) }
    ensures grows { vec_capacity out.old ≤ vec_capacity out.new }
    ensures full { OnErr result (vec_capacity out.old < vec_len out.old + length (counted key_bytes items.now)) }
{
    out.push(items.len() as u8)?;
    for item in items {
        put_key(item, out)?;
    }
    Ok(())
}

/// Spells a schema at the end.
#[tactic(auto, using(crate::proofs::Lengths::lengths))]
pub fn put_schema(schema: &Schema, out: &mut Vec<u8>) -> Result<(), AllocError>
    requires { IsSchema schema.now }
    ensures ok { OnOk result (out.new.items ≡ out.old.items ++ schema_bytes schema.now) }
    ensures len { OnOk result (vec_len out.new ≡ vec_len out.old + length (schema_bytes schema.now)) }
    ensures grows { vec_capacity out.old ≤ vec_capacity out.new }
    ensures full { OnErr result (vec_capacity out.old < vec_len out.old + length (schema_bytes schema.now)) }
{
    put_name(schema.name.as_slice(), out)?;
    put_columns(schema.columns.as_slice(), out)?;
    out.push(schema.primary)?;
    put_keys(schema.keys.as_slice(), out)
}
