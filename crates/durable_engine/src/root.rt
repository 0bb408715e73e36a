//! The moment from which the clauses about crashes count. It is picked where a program begins, and costs nothing there.
//! Contracts alone read it: no code does, and `Brand` is the one implementation.

ghost use Rattle.std.specs.Prelude.{None};
ghost use Rattle.store_api.specs.Past.{Past};

use std::marker::Brand;

/// What the disk's past was when its files were mounted.
pub trait Root {
    ghost root: { Past };
}

impl Root for Brand {
    ghost root = { record { moment = 0; faults = 0; state_at = λ m. None } };
}
