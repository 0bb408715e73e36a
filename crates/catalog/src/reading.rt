//! Reading entries of the catalog from left to right. A reader gives what is spelled at the front, and the bytes after it.
//! Schemas and numbers are read by `schema_codec`.

ghost use Rattle.schema_codec.specs.Reading.{Gives, u32_at, list_at};
ghost use Rattle.catalog.specs.Reading.{entry_at};

use crate::held::{Held, Roots};
use inno_types::Listed;
use schema_codec::{Stop, schema_of, u32_of};
use std::alloc::Global;

fn roots_of(alloc: Global, count: usize, bytes: &[u8]) -> Result<(Roots, &[u8]), Stop>
    ensures { Gives (λ x. (x.0, x.1.now)) result (list_at u32_at count bytes.now) }
{
    let mut items = Vec::new(alloc);
    let mut rest = bytes;
    for _ in 0..count {
        let (item, after) = u32_of(rest)?;
        items.push(item)?;
        rest = after;
    }
    Ok((Listed::from_vec(items), rest))
}

/// Reads an entry at the front of the bytes.
#[tactic(auto, unfolding(crate::specs::Reading::entry_at))]
pub fn entry_of(alloc: Global, bytes: &[u8]) -> Result<(Held, &[u8]), Stop>
    ensures { Gives (λ x. (x.0, x.1.now)) result (entry_at bytes.now) }
{
    let (schema, rest) = schema_of(alloc, bytes)?;
    let count = 1 + schema.keys.as_slice().len();
    let (roots, rest) = roots_of(alloc, count, rest)?;
    Ok((Held { schema, roots }, rest))
}
