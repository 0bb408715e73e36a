//! Writes a version as the value of its clustered record.
//! A call works on a copy of what stands in `out`, so that a refused one leaves that as it was.

ghost use Rattle.std.specs.Prelude.{◌≡◌, ◌++◌, OnOk, OnErr};
ghost use Rattle.row_codec.specs.Rows.{IsRowOf, head_code, others_code, version_code};

use crate::fields::{around, put_fields};
use inno_types::{Bytes, Column, Schema, Value};
use key_codec::put_u64;
use std::alloc::AllocError;
use store_api::{NoMemory, Version};

/// Appends the mark, the writer and the roll pointer.
#[tactic(auto, unfolding(crate::specs::Rows::head_code))]
fn put_head(version: &Version, out: &mut Vec<u8>) -> Result<(), AllocError>
    ensures ok { OnOk result (out.new.items ≡ out.old.items ++ head_code version.now.marked version.now.writer version.now.pointer) }
{
    out.push(u8::from(version.marked))?;
    put_u64(version.writer, out)?;
    put_u64(version.pointer, out)
}

/// Appends the fields of all columns but the one at a place.
fn put_others(
    place: u8,
    columns: &[Column],
    row: &[Value],
    out: &mut Vec<u8>,
) -> Result<(), AllocError>
    requires { IsRowOf columns.now row.now }
    ensures ok { OnOk result (out.new.items ≡ out.old.items ++ others_code place columns.now row.now) }
{
    let (columns_before, columns_behind) = around(columns, place);
    let (before, behind) = around(row, place);
    put_fields(columns_before, before, out)?;
    put_fields(columns_behind, behind, out)?;
    Ok(())
}

/// Appends the value of a version's clustered record. An `Err` changes nothing.
pub fn encode(schema: &Schema, version: &Version, out: &mut Bytes) -> Result<(), NoMemory>
    requires { IsRowOf schema.now.columns version.now.row }
    ensures ok { OnOk result (out.new ≡ out.old ++ version_code schema.now version.now) }
    ensures err { OnErr result (out.new ≡ out.old) }
{
    let mut bytes = out.copied()?.into_vec();
    put_head(version, &mut bytes)?;
    put_others(
        schema.primary,
        schema.columns.as_slice(),
        version.row.as_slice(),
        &mut bytes,
    )?;
    *out = Bytes::from_vec(bytes);
    Ok(())
}
