//! Rows and their values as SQL.
//! `dump` alone asks, for one row after another.

ghost use Rattle.std.specs.Prelude.{◌≡◌, ◌++◌, OnOk, codes};
ghost use Rattle.std.specs.List.{flat_map};
ghost use Rattle.script_generator.specs.Dump as spelled;

use crate::dump_pieces::push_name;
use crate::pieces::push_text;
use inno_types::Value;
use std::alloc::{AllocError, Global};

/// The statement that puts the row into the table.
#[tactic(auto, unfolding(crate::specs::Dump::insert_text))]
pub(crate) fn push_row(
    alloc: Global,
    out: &mut Vec<u8>,
    table: &[u8],
    row: &[Value],
) -> Result<(), AllocError>
    ensures { OnOk result (out.new.items ≡ out.old.items ++ spelled.insert_text table.now row.now) }
{
    push_text(out, "INSERT INTO ")?;
    push_name(out, table)?;
    push_values(alloc, out, row)
}

/// The values in brackets, and the end of the statement.
#[tactic(auto, unfolding(crate::specs::Dump::values_text))]
fn push_values(alloc: Global, out: &mut Vec<u8>, row: &[Value]) -> Result<(), AllocError>
    ensures { OnOk result (out.new.items ≡ out.old.items ++ spelled.values_text row.now) }
{
    push_text(out, " VALUES (")?;
    push_listed(alloc, out, row)?;
    push_text(out, ");\n")
}

/// The values, with a comma between them.
fn push_listed(alloc: Global, out: &mut Vec<u8>, row: &[Value]) -> Result<(), AllocError>
    ensures { OnOk result (out.new.items ≡ out.old.items ++ spelled.listed (codes ",") spelled.value_text row.now) }
{
    if let [first, others @ ..] = row {
        push_value(alloc, out, first)?;
        for value in others {
            push_text(out, ",")?;
            push_value(alloc, out, value)?;
        }
    }
    Ok(())
}

fn push_value(alloc: Global, out: &mut Vec<u8>, value: &Value) -> Result<(), AllocError>
    ensures { OnOk result (out.new.items ≡ out.old.items ++ spelled.value_text value.now) }
{
    match value {
        Value::Null => push_text(out, "NULL"),
        Value::Int(n) => {
            let digits = n.to_string(alloc)?;
            push_text(out, digits.as_str())
        }
        Value::Text(bytes) => {
            push_text(out, "'")?;
            push_escaped(out, bytes.as_slice())?;
            push_text(out, "'")
        }
    }
}

fn push_escaped(out: &mut Vec<u8>, bytes: &[u8]) -> Result<(), AllocError>
    ensures { OnOk result (out.new.items ≡ out.old.items ++ flat_map spelled.text_byte bytes.now) }
{
    for b in bytes {
        push_byte(out, *b)?;
    }
    Ok(())
}

fn push_byte(out: &mut Vec<u8>, b: u8) -> Result<(), AllocError>
    ensures { OnOk result (out.new.items ≡ out.old.items ++ spelled.text_byte b) }
{
    match b {
        0 => push_text(out, "\\0"),
        b'\n' => push_text(out, "\\n"),
        b'\r' => push_text(out, "\\r"),
        26 => push_text(out, "\\Z"),
        b'\'' => push_text(out, "\\'"),
        b'\\' => push_text(out, "\\\\"),
        _ => Ok(out.push(b)?),
    }
}
