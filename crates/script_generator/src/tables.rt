//! Tables as SQL: their columns, the primary key, and the other keys.
//! `dump` alone asks, once for each table, before its rows.

ghost use Rattle.std.specs.Prelude.{◌≡◌, ◌++◌, OnOk, codes, slice_get};
ghost use Rattle.std.specs.List.{flat_map};
ghost use Rattle.script_generator.specs.Dump as spelled;

use crate::dump_pieces::{push_name, push_number};
use crate::pieces::push_text;
use inno_types::{Column, Key, Kind, Schema};
use std::alloc::{AllocError, Global};

/// The statement that creates the table.
#[tactic(auto, unfolding(crate::specs::Dump::create_text))]
pub(crate) fn push_create(
    alloc: Global,
    out: &mut Vec<u8>,
    schema: &Schema,
) -> Result<(), AllocError>
    ensures { OnOk result (out.new.items ≡ out.old.items ++ spelled.create_text schema.now) }
{
    push_text(out, "CREATE TABLE ")?;
    push_name(out, schema.name.as_slice())?;
    push_body(alloc, out, schema)
}

/// The columns and all that follows them.
#[tactic(auto, unfolding(crate::specs::Dump::columns_text))]
fn push_body(alloc: Global, out: &mut Vec<u8>, schema: &Schema) -> Result<(), AllocError>
    ensures { OnOk result (out.new.items ≡ out.old.items ++ spelled.columns_text schema.now) }
{
    push_text(out, " (")?;
    push_columns(alloc, out, schema.columns.as_slice())?;
    push_end(out, schema)
}

/// The primary key and the other keys, and the end of the statement.
#[tactic(auto, unfolding(crate::specs::Dump::keys_text))]
fn push_end(out: &mut Vec<u8>, schema: &Schema) -> Result<(), AllocError>
    ensures { OnOk result (out.new.items ≡ out.old.items ++ spelled.keys_text schema.now) }
{
    push_primary(out, schema)?;
    push_keys(out, schema.columns.as_slice(), schema.keys.as_slice())?;
    push_text(out, ");\n")
}

#[tactic(auto, unfolding(crate::specs::Dump::primary_text))]
fn push_primary(out: &mut Vec<u8>, schema: &Schema) -> Result<(), AllocError>
    ensures { OnOk result (out.new.items ≡ out.old.items ++ spelled.primary_text schema.now) }
{
    push_text(out, ", PRIMARY KEY")?;
    push_in_brackets(out, schema.columns.as_slice(), schema.primary)
}

/// The columns, with a comma between them.
fn push_columns(alloc: Global, out: &mut Vec<u8>, columns: &[Column]) -> Result<(), AllocError>
    ensures { OnOk result (out.new.items ≡ out.old.items ++ spelled.listed (codes ", ") spelled.column_text columns.now) }
{
    if let [first, others @ ..] = columns {
        push_column(alloc, out, first)?;
        for column in others {
            push_text(out, ", ")?;
            push_column(alloc, out, column)?;
        }
    }
    Ok(())
}

fn push_column(alloc: Global, out: &mut Vec<u8>, column: &Column) -> Result<(), AllocError>
    ensures { OnOk result (out.new.items ≡ out.old.items ++ spelled.column_text column.now) }
{
    push_name(out, column.name.as_slice())?;
    push_text(out, " ")?;
    push_kind(alloc, out, column.kind)?;
    if column.not_null {
        push_text(out, " NOT NULL")?;
    }
    Ok(())
}

fn push_kind(alloc: Global, out: &mut Vec<u8>, kind: Kind) -> Result<(), AllocError>
    ensures { OnOk result (out.new.items ≡ out.old.items ++ spelled.kind_text kind) }
{
    match kind {
        Kind::BigInt => push_text(out, "BIGINT"),
        Kind::VarBinary(most) => {
            push_text(out, "VARBINARY(")?;
            push_number(alloc, out, most)?;
            push_text(out, ")")
        }
    }
}

fn push_keys(out: &mut Vec<u8>, columns: &[Column], keys: &[Key]) -> Result<(), AllocError>
    ensures { OnOk result (out.new.items ≡ out.old.items ++ flat_map (spelled.key_text columns.now) keys.now) }
{
    for key in keys {
        push_text(out, ", KEY ")?;
        push_name(out, key.name.as_slice())?;
        push_in_brackets(out, columns, key.column)?;
    }
    Ok(())
}

/// The name of the column at a place, in brackets.
#[tactic(auto, unfolding(crate::specs::Dump::in_brackets))]
fn push_in_brackets(out: &mut Vec<u8>, columns: &[Column], place: u8) -> Result<(), AllocError>
    ensures { OnOk result (out.new.items ≡ out.old.items ++ spelled.in_brackets columns.now place) }
{
    push_text(out, " (")?;
    push_name(out, name_at(columns, place))?;
    push_text(out, ")")
}

fn name_at(columns: &[Column], place: u8) -> &[u8]
    ensures { result.now ≡ spelled.found_name (slice_get columns.now place) }
{
    match columns.get(usize::from(place)) {
        Some(column) => column.name.as_slice(),
        None => &[],
    }
}
