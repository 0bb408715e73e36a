//! Why a reader stops: memory ran out, or nothing is spelled at the front of the bytes.
//! The readers of `log_format` and `catalog` stop with this type too.

ghost use Rattle.std.specs.Prelude.{◌≡◌};
ghost use Rattle.schema_codec.specs.declared.stop.Stop.TheVariants.{Memory};

use std::alloc::{AllocError, AllocFailed};

/// Why a reader stops.
#[derive(Clone, Copy)]
pub enum Stop {
    Memory,
    Malformed,
}

impl From<AllocError> for Stop {
    ghost from_gives = { λ _ e. e ≡ Memory };

    fn from(_: AllocError) -> Self {
        Stop::Memory
    }
}

impl<T: Drop> From<AllocFailed<T>> for Stop {
    ghost from_gives = { λ _ e. e ≡ Memory };

    fn from(_: AllocFailed<T>) -> Self {
        Stop::Memory
    }
}
