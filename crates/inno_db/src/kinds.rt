//! What a column's kind has to be: one that holds a value at all, and one short enough for an index.
//! Whatever declares, plans or keeps a table asks it here.

ghost use Rattle.std.specs.Prelude.{◌≡◌};
ghost use Rattle.inno_db.specs.Declarations.{is_sized, is_short};

use crate::limits::MOST_BYTES_OF_INDEX;
use inno_types::Kind;

/// Whether a value of the kind has at least one byte.
pub fn is_sized(kind: Kind) -> bool
    ensures { result ≡ is_sized kind }
{
    match kind {
        Kind::BigInt => true,
        Kind::VarBinary(size) => size != 0,
    }
}

/// Whether an index holds values of the kind.
pub fn is_short(kind: Kind) -> bool
    ensures { result ≡ is_short kind }
{
    match kind {
        Kind::BigInt => true,
        Kind::VarBinary(size) => size <= MOST_BYTES_OF_INDEX,
    }
}
