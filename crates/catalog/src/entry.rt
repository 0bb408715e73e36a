//! Entries of the catalog as bytes, and bytes as entries.
//! These calls are all that crates above use.

ghost use Rattle.std.specs.Prelude.{◌≡◌, ◌++◌, IfOk, IfErr, OnOk};
ghost use Rattle.std.specs.List.{flat_map};
ghost use Rattle.schema_codec.specs.Numbers.{u32_bytes};
ghost use Rattle.schema_codec.specs.Schema.{schema_bytes, IsSchema};
ghost use Rattle.catalog.specs.Entry.{entry_bytes, IsEntry};
ghost use Rattle.catalog.specs.Refused.{BeginsWith, IsRefused};

use crate::held::{EntryBad, Held};
use crate::reading::entry_of;
use crate::write;
use inno_types::Schema;
use schema_codec::{Stop, put_schema};
use std::alloc::Global;
use store_api::NoMemory;

/// Spells an entry at the end of a vector.
pub fn put_entry(held: &Held, out: &mut Vec<u8>) -> Result<(), NoMemory>
    requires { IsEntry held.now }
    ensures { OnOk result (out.new.items ≡ out.old.items ++ entry_bytes held.now) }
{
    write::put_entry(held, out)?;
    Ok(())
}

/// Spells the entry of a table with this schema and these root pages at the end of a vector.
pub fn put_table(schema: &Schema, roots: &[u32], out: &mut Vec<u8>) -> Result<(), NoMemory>
    requires { IsSchema schema.now }
    ensures { OnOk result (out.new.items ≡ out.old.items ++ (schema_bytes schema.now ++ flat_map u32_bytes roots.now)) }
{
    put_schema(schema, out)?;
    write::put_roots(roots, out)?;
    Ok(())
}

/// The table whose entry is at the front of these bytes. What stands behind it is passed over.
pub fn get_entry(alloc: Global, bytes: &[u8]) -> Result<Held, EntryBad>
    ensures entry { IfOk result (λ held. BeginsWith held bytes.now) }
    ensures refused { IfErr result (IsRefused bytes.now) }
{
    match entry_of(alloc, bytes) {
        Ok((held, _)) => Ok(held),
        Err(Stop::Memory) => Err(EntryBad::NoMemory),
        Err(Stop::Malformed) => Err(EntryBad::Shape),
    }
}
