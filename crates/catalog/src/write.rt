//! Spelling entries of the catalog at the end of a vector. Schemas and numbers are spelled by `schema_codec`.
//! Only `entry` calls this.

ghost use Rattle.std.specs.Prelude.{◌≡◌, ◌++◌, OnOk};
ghost use Rattle.std.specs.List.{flat_map};
ghost use Rattle.schema_codec.specs.Numbers.{u32_bytes};
ghost use Rattle.catalog.specs.Entry.{entry_bytes, IsEntry};

use crate::held::Held;
use schema_codec::{put_schema, put_u32};
use std::alloc::AllocError;

/// Each of them.
pub fn put_roots(roots: &[u32], out: &mut Vec<u8>) -> Result<(), AllocError>
    ensures { OnOk result (out.new.items ≡ out.old.items ++ flat_map u32_bytes roots.now) }
{
    for root in roots {
        put_u32(*root, out)?;
    }
    Ok(())
}

/// Spells an entry. Nothing is known of what was spelled where memory ran out.
pub fn put_entry(held: &Held, out: &mut Vec<u8>) -> Result<(), AllocError>
    requires { IsEntry held.now }
    ensures { OnOk result (out.new.items ≡ out.old.items ++ entry_bytes held.now) }
{
    put_schema(&held.schema, out)?;
    put_roots(held.roots.as_slice(), out)?;
    Ok(())
}
