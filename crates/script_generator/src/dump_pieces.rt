//! Names and small numbers at the end of the text of a dump.
//! Only `rows` and `tables` spell by these.

ghost use Rattle.std.specs.Prelude.{◌≡◌, ◌++◌, OnOk};
ghost use Rattle.std.specs.List.{flat_map};
ghost use Rattle.std.specs.Fmt.{decimal};
ghost use Rattle.script_generator.specs.Dump as spelled;

use crate::pieces::push_text;
use std::alloc::{AllocError, Global};

/// A name in backquotes.
#[tactic(auto, unfolding(crate::specs::Dump::name_text))]
pub(crate) fn push_name(out: &mut Vec<u8>, name: &[u8]) -> Result<(), AllocError>
    ensures { OnOk result (out.new.items ≡ out.old.items ++ spelled.name_text name.now) }
{
    push_text(out, "`")?;
    push_doubled(out, name)?;
    push_text(out, "`")
}

fn push_doubled(out: &mut Vec<u8>, name: &[u8]) -> Result<(), AllocError>
    ensures { OnOk result (out.new.items ≡ out.old.items ++ flat_map spelled.name_byte name.now) }
{
    for b in name {
        push_name_byte(out, *b)?;
    }
    Ok(())
}

fn push_name_byte(out: &mut Vec<u8>, b: u8) -> Result<(), AllocError>
    ensures { OnOk result (out.new.items ≡ out.old.items ++ spelled.name_byte b) }
{
    match b {
        b'`' => push_text(out, "``"),
        _ => Ok(out.push(b)?),
    }
}

pub(crate) fn push_number(alloc: Global, out: &mut Vec<u8>, n: u8) -> Result<(), AllocError>
    ensures { OnOk result (out.new.items ≡ out.old.items ++ decimal n) }
{
    let digits = n.to_string(alloc)?;
    push_text(out, digits.as_str())
}
