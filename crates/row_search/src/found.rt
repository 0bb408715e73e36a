//! A row that a search has found, with its key, and the order of such rows.
//! Only the step that keeps a row makes one (`visit`); whoever drives the search takes them all at its end.

ghost use Rattle.std.specs.Prelude.{◌≡◌, OnOk, OnErr};
ghost use Rattle.std.specs.Ordering.{is_lt};
ghost use Rattle.std.specs.List.Sorted.{IsPermutation, IsSortedBy};
ghost use Rattle.entries.specs.Pairs.{key_cmp};

use inno_types::{Bytes, Row};
use std::alloc::AllocError;

/// A row, behind the key of its clustered record.
#[derive(Drop)]
pub struct FoundRow {
    pub key: Bytes,
    pub row: Row,
}

/// Puts rows into the order of their keys. An `Err` changes nothing.
pub fn sort_by_key(rows: &mut Vec<FoundRow>) -> Result<(), AllocError>
    ensures same { IsPermutation rows.old.items rows.new.items }
    ensures ok { OnOk result (IsSortedBy (λ a b. is_lt (key_cmp a.key b.key)) rows.new.items) }
    ensures err { OnErr result (rows.new.items ≡ rows.old.items) }
{
    rows.sort_by(|a, b| a.key.as_slice().cmp(b.key.as_slice()))
}
