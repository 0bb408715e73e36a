//! Words and numbers at the end of a text.
//! Generated scripts and dumps are both spelled by these; no other crate calls them.

ghost use Rattle.std.specs.Prelude.{◌≡◌, ◌++◌, OnOk};
ghost use Rattle.std.specs.Fmt.{decimal};

use std::alloc::{AllocError, Global};

pub(crate) fn push_text(out: &mut Vec<u8>, text: &str) -> Result<(), AllocError>
    ensures { OnOk result (out.new.items ≡ out.old.items ++ text.now) }
{
    out.extend_from_slice(text.as_bytes())
}

pub(crate) fn push_number(alloc: Global, out: &mut Vec<u8>, n: u64) -> Result<(), AllocError>
    ensures { OnOk result (out.new.items ≡ out.old.items ++ decimal n) }
{
    let digits = n.to_string(alloc)?;
    push_text(out, digits.as_str())
}
