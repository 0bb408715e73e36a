//! The version that an undo record keeps. All memory for it is taken here, before anything changes.
//! Only the logged changes of the store ask, and put it in place together with the pair.

ghost use Rattle.std.specs.Prelude.{◌≡◌, ◌==◌, IfOk, Some};
ghost use Rattle.store_api.specs.declared.answers.Version.{Version};
ghost use Rattle.world.specs.Indexes.{IsVersionKept, KeepsAsSaid};
ghost use Rattle.list_store.specs.Kept.{IsKeptOf, KeepsOnly};

use inno_types::Schema;
use row_codec::{RowBad, decode};
use row_versions::Kept;
use std::alloc::Global;
use store_api::{NoMemory, Undo, UndoKind};

/// The version that an undo record keeps, read from its bytes.
fn keep(alloc: Global, schemas: &[Schema], undo: &Undo) -> Result<Kept, NoMemory>
    requires { (version : Version) × IsVersionKept schemas.now undo.now version }
    ensures { IfOk result (IsKeptOf schemas.now undo.now) }
{
    let schema = &schemas[undo.table as usize];
    match decode(alloc, schema, undo.key.as_slice(), undo.value.as_slice()) {
        Ok(version) => Ok(Kept {
            table: undo.table,
            key: undo.key.copied()?,
            version,
            bytes: undo.value.copied()?,
        }),
        Err(RowBad::NoMemory) => Err(NoMemory),
        Err(RowBad::Shape) => unreachable!(),
    }
}

/// The version that an undo record keeps, if it keeps one.
pub(crate) fn keep_if(
    alloc: Global,
    schemas: &[Schema],
    undo: &Undo,
) -> Result<Option<Kept>, NoMemory>
    requires { KeepsAsSaid schemas.now undo.now }
    ensures { IfOk result (KeepsOnly (undo.now.kind == 2) schemas.now undo.now) }
{
    if undo.kind == UndoKind::FormerRow as u8 {
        Ok(Some(keep(alloc, schemas, undo)?))
    } else {
        Ok(None)
    }
}
