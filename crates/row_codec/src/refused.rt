//! Why a record is refused.
//! A bad key makes a bad record, and want of memory stays that.

ghost use Rattle.std.specs.Prelude.{◌≡◌};

use key_codec::KeyBad;
use std::alloc::{AllocError, AllocFailed};

/// Why bytes are not read as a version: they are none, or memory ran out.
#[derive(Clone, Copy, Debug)]
pub enum RowBad {
    Shape,
    NoMemory,
}

impl From<AllocError> for RowBad {
    ghost use Rattle.row_codec.specs.declared.refused.RowBad.TheVariants.{NoMemory};

    ghost from_gives = { λ _ e. e ≡ NoMemory };

    fn from(_: AllocError) -> RowBad {
        RowBad::NoMemory
    }
}

impl<T: Drop> From<AllocFailed<T>> for RowBad {
    ghost use Rattle.row_codec.specs.declared.refused.RowBad.TheVariants.{NoMemory};

    ghost from_gives = { λ _ e. e ≡ NoMemory };

    fn from(_: AllocFailed<T>) -> RowBad {
        RowBad::NoMemory
    }
}

impl From<KeyBad> for RowBad {
    ghost use Rattle.row_codec.specs.Refused.{refusal_of};

    ghost from_gives = { λ bad e. e ≡ refusal_of bad };

    fn from(bad: KeyBad) -> RowBad {
        match bad {
            KeyBad::Bad => RowBad::Shape,
            KeyBad::NoMemory => RowBad::NoMemory,
        }
    }
}
