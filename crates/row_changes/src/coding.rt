//! Rows as bytes, by the tables of a world.
//! `record_change` alone calls these; the world is only read.

ghost use Rattle.std.specs.Prelude.{◌≡◌, IfOk, slice_get, Some};
ghost use Rattle.row_codec.specs.Rows.{IsRowOf, version_code};
ghost use Rattle.world.specs.State.{Session, Work, HasWork};
ghost use Rattle.row_changes.specs.Records.{Decodes};
ghost use Rattle.row_changes.specs.Records.{id_for, undo_of_new, undo_of_former};

use inno_types::{Bytes, Schema};
use row_codec::{RowBad, decode, encode};
use std::alloc::Global;
use store_api::{Move, NoMemory, PageRule, Undo, UndoKind, Version};
use world::World;

/// The version whose record this is. Where it is none of the table's, the answer says so of page 0, as of any pair that is
/// seen without its page.
pub fn decoded<W: World>(
    alloc: Global,
    world: &W,
    table: u8,
    key: &Bytes,
    value: &[u8],
) -> Result<Version, Move>
    requires { (schema : Schema) × (slice_get (W.state world.now).schemas table ≡ Some schema) }
    ensures { (schema : Schema) → slice_get (W.state world.now).schemas table ≡ Some schema → Decodes schema key.now value.now result }
{
    match world.schema(table) {
        Some(schema) => match decode(alloc, schema, key.as_slice(), value) {
            Ok(version) => Ok(version),
            Err(RowBad::Shape) => Err(Move::Bad {
                page: 0,
                rule: PageRule::Coding as u8,
            }),
            Err(RowBad::NoMemory) => Err(Move::NoMemory),
        },
        None => unreachable!(),
    }
}

/// The id by which the session's transaction writes: its own, or the one that it will be given.
pub fn writer_of<W: World>(world: &W, s: u32) -> u64
    requires { (session : Session) × (work : Work) × HasWork s session work (W.state world.now) }
    ensures { (session : Session) (work : Work) → HasWork s session work (W.state world.now) → result ≡ id_for work.id (W.state world.now).txns.next }
{
    let own = world.session(s).id;
    if own != 0 {
        return own;
    }
    world.next_id()
}

/// The value of a version's record.
pub fn coded<W: World>(
    alloc: Global,
    world: &W,
    table: u8,
    version: &Version,
) -> Result<Bytes, NoMemory>
    requires { (schema : Schema) × (slice_get (W.state world.now).schemas table ≡ Some schema) × IsRowOf schema.columns version.now.row }
    ensures { IfOk result (λ bytes. (schema : Schema) → slice_get (W.state world.now).schemas table ≡ Some schema → bytes ≡ version_code schema version.now) }
{
    let Some(schema) = world.schema(table) else {
        unreachable!()
    };
    let mut value = Bytes::new(alloc);
    encode(schema, version, &mut value)?;
    Ok(value)
}

/// The undo record of a new row.
pub fn undo_of_new(alloc: Global, table: u8, key: &Bytes) -> Result<Undo, NoMemory>
    ensures { IfOk result (λ undo. undo ≡ undo_of_new table key.now) }
{
    Ok(Undo {
        kind: UndoKind::NewRow as u8,
        table,
        key: key.copied()?,
        value: Bytes::new(alloc),
    })
}

/// The undo record that keeps the record of these bytes.
pub fn undo_of_former(table: u8, key: &Bytes, bytes: &Bytes) -> Result<Undo, NoMemory>
    ensures { IfOk result (λ undo. undo ≡ undo_of_former table key.now bytes.now) }
{
    Ok(Undo {
        kind: UndoKind::FormerRow as u8,
        table,
        key: key.copied()?,
        value: bytes.copied()?,
    })
}
