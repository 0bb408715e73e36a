//! One row is put into a world that is yet to be opened: its clustered record, and then the entries of its table's
//! keys. Only `Opening` calls these; nobody else is in the world yet.

ghost use Rattle.std.specs.Prelude.{◌≡◌, ◌<◌, Some, None, true, false, Ok, Err, ℕ, List, IfOk, OnOk, length, slice_get, All};
ghost use Rattle.inno_types.specs.declared.value.Value.{Value};
ghost use Rattle.inno_types.specs.declared.value.Column.{Column};
ghost use Rattle.inno_db.specs.Database.{key_of};
ghost use Rattle.key_codec.specs.Keys.{IsOfKind, key_code, Has64Bits};
ghost use Rattle.row_codec.specs.Rows.{IsRowOf, version_code};
ghost use Rattle.row_versions.specs.Chains.{Chains};
ghost use Rattle.law_stored_rows.specs.Storable.{IsStorable};
ghost use Rattle.law_stored_rows.specs.Fitting.{FitsTable};
ghost use Rattle.list_world.specs.Parts.{world_of};
ghost use Rattle.row_changes.specs.Edits.{IsRowFor};
ghost use Rattle.law_stored_rows.specs.Tables.{what_is_there};
ghost use Rattle.row_changes.specs.Keys.{IsChangingKeys};
ghost use Rattle.inno_types.specs.declared.value.Schema.{Schema as ASchema};
ghost use Rattle.law_held_steps.specs.Leaving.{MovesPlaces, LeavesTable};
ghost use Rattle.row_changes.specs.Awaited.{AwaitsNobody};
ghost use Rattle.engine.specs.Laid.{PutsNewRecord, HasRecordThere, TakesKeysOver};

use crate::opened::PutBad;
use inno_db::{index_number, key_of_row, to_value};
use inno_types::{Bytes, Kind, Row, Schema, Value};
use key_codec::put_key;
use list_world::ListWorld;
use row_changes::KeysChange;
use row_codec::encode;
use std::alloc::Global;
use store_api::{Move, NoMemory, Stepped, Version};
use world::World;

/// Nobody else uses the world.
const ACTOR: u32 = 0;

/// The key of the row's record.
fn key_bytes(alloc: Global, schema: &Schema, row: &Row) -> Result<Bytes, NoMemory>
    requires { (column : Column) × (slice_get schema.now.columns schema.now.primary ≡ Some column) × IsOfKind column.kind (key_of schema.now row.now) }
    ensures { IfOk result (λ bytes. (column : Column) → slice_get schema.now.columns schema.now.primary ≡ Some column
        → bytes ≡ key_code column.kind (key_of schema.now row.now)) }
{
    let kind = schema.columns.as_slice()[schema.primary as usize].kind;
    let value = to_value(key_of_row(schema, row))?;
    value_bytes(alloc, &value, kind)
}

/// The key of a value of this kind.
fn value_bytes(alloc: Global, value: &Value, kind: Kind) -> Result<Bytes, NoMemory>
    requires { IsOfKind kind value.now }
    ensures { IfOk result (λ bytes. bytes ≡ key_code kind value.now) }
{
    let mut bytes = Bytes::new(alloc);
    put_key(value, kind, &mut bytes)?;
    Ok(bytes)
}

/// The value of the row's record: it was there before anybody wrote, and has no older version.
fn record_bytes(alloc: Global, schema: &Schema, row: &Row) -> Result<Bytes, NoMemory>
    requires { IsRowOf schema.now.columns row.now }
    ensures { IfOk result (λ bytes. bytes ≡ version_code schema.now (record { row = row.now; writer = 0; pointer = 0; marked = false })) }
{
    let version = Version {
        row: row.copied()?,
        writer: 0,
        pointer: 0,
        marked: false,
    };
    let mut bytes = Bytes::new(alloc);
    encode(schema, &version, &mut bytes)?;
    Ok(bytes)
}

/// The key and the value of the row's record.
fn record_of(alloc: Global, schema: &Schema, row: &Row) -> Result<(Bytes, Bytes), NoMemory>
    requires fits { FitsTable schema.now row.now }
    requires numbers { All Has64Bits row.now }
    ensures key { IfOk result (λ both. IsRowFor schema.now row.now both.0) }
    ensures value { IfOk result (λ both. both.1 ≡ version_code schema.now (record { row = row.now; writer = 0; pointer = 0; marked = false })) }
{
    let key = key_bytes(alloc, schema, row)?;
    let value = record_bytes(alloc, schema, row)?;
    Ok((key, value))
}

/// Puts the row's record, and gives its key. Only want of memory keeps it from it where the row isn't there: the index is in
/// memory, and nobody else uses it.
pub fn put_record(
    alloc: Global,
    world: &mut ListWorld,
    table: u8,
    schema: &Schema,
    row: &Row,
) -> Result<Bytes, PutBad>
    requires there { slice_get (world_of world.old).schemas table ≡ Some schema.now }
    requires storable { IsStorable schema.now }
    requires fits { FitsTable schema.now row.now }
    requires numbers { All Has64Bits row.now }
    requires nobody { AwaitsNobody (world_of world.old) }
    ensures ok { IfOk result (PutsNewRecord table schema.now row.now (world_of world.old) (world_of world.new)) }
    ensures there { result ≡ Err PutBad.RowThere → HasRecordThere table schema.now row.now (world_of world.old) }
{
    let Ok((key, value)) = record_of(alloc, schema, row) else {
        return Err(PutBad::NoMemory);
    };
    match world.insert(index_number(table, 0), ACTOR, &key, &value, None) {
        Move::Done => Ok(key),
        Move::At(..) => Err(PutBad::RowThere),
        Move::NoMemory => Err(PutBad::NoMemory),
        _ => unreachable!(),
    }
}

/// Leaves all indexes of a table, so that no keys are awaited there.
pub fn leave_table(world: &mut ListWorld, table: u8, keys: u8)
    requires { (schema : ASchema) × (slice_get (world_of world.old).schemas table ≡ Some schema) × (keys ≡ length schema.keys) × (keys < 5) }
    ensures leaves { MovesPlaces 0 (world_of world.old) (world_of world.new) }
    ensures gone { LeavesTable 0 table (world_of world.old) (world_of world.new) }
{
    for which in 0..keys + 1 {
        world.leave(index_number(table, which), ACTOR);
    }
}

/// Puts the row's entries into the keys of its table. Only want of memory keeps a step from going on: the indexes are in memory,
/// and nobody else uses them.
pub fn enter_keys(
    alloc: Global,
    world: &mut ListWorld,
    table: u8,
    key: Bytes,
    row: &Row,
) -> Result<(), NoMemory>
    requires keys { (chains : Chains) × IsChangingKeys chains (what_is_there chains) (world_of world.old) (record { table = table; key = key; before = None; after = Some row.now; which = 0; put = None }) }
    requires nobody { AwaitsNobody (world_of world.old) }
    ensures { OnOk result (TakesKeysOver table key row.now (world_of world.old) (world_of world.new)) }
{
    let mut change = KeysChange {
        table,
        key,
        before: None,
        after: Some(row.copied()?),
        which: 0,
        put: None,
    };
    take_over(alloc, world, &mut change)
}

/// Makes all steps of the change.
fn take_over(alloc: Global, world: &mut ListWorld, change: &mut KeysChange) -> Result<(), NoMemory>
    requires keys { (chains : Chains) × IsChangingKeys chains (what_is_there chains) (world_of world.old) change.old }
    requires nobody { AwaitsNobody (world_of world.old) }
    ensures { OnOk result ((table : ℕ) (key : List ℕ) (row : List Value)
        → change.old ≡ record { table = table; key = key; before = None; after = Some row; which = 0; put = None }
        → TakesKeysOver table key row (world_of world.old) (world_of world.new)) }
{
    for _ in 0..u32::MAX {
        if is_over(change.advance(alloc, world, ACTOR))? {
            return Ok(());
        }
    }
    Err(NoMemory)
}

/// Whether this was the last step. Nothing but want of memory hinders one.
fn is_over(step: Stepped<(), Move>) -> Result<bool, NoMemory>
    requires { (why : Move) → step ≡ Stepped.Hindered why → why ≡ Move.NoMemory }
    ensures over { result ≡ Ok true → step ≡ Stepped.Done (record {}) }
    ensures went { result ≡ Ok false → step ≡ Stepped.Went }
{
    match step {
        Stepped::Went => Ok(false),
        Stepped::Done(()) => Ok(true),
        Stepped::Hindered(Move::NoMemory) => Err(NoMemory),
        Stepped::Hindered(_) => unreachable!(),
    }
}
