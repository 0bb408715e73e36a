//! Two operands in boxes. Their type is a parameter, so that letting one go is checked once and not for each operator.
//! `conditions` and `expressions` alone box operands by it.

ghost use Rattle.std.specs.Prelude.{◌≡◌, IfOk};

use std::alloc::{AllocError, Global};

pub(crate) fn boxed<T: Drop>(
    alloc: Global,
    left: T,
    right: T,
) -> Result<(Box<T>, Box<T>), AllocError>
    ensures { IfOk result (λ both. (both.0.value ≡ left) × (both.1.value ≡ right)) }
{
    let left = Box::new(alloc, left)?;
    let right = Box::new(alloc, right)?;
    Ok((left, right))
}
