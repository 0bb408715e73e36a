//! Where the field of a column stands in a record: behind the head and the fields of the columns before it.
//! `entry` alone asks; the bytes of a record are only read.

ghost use Rattle.std.specs.Prelude.{◌≡◌, ◌≢◌, ℕ, List, ◌<◌, ◌≤◌, ◌+◌, ◌*◌, ◌++◌, length, remove, sum_by, slice_index_or, IsSomeAnd};
ghost use Rattle.inno_types.specs.declared.value.Value.{Value};
ghost use Rattle.row_codec.specs.Rows.{IsRowOf, others_code};
ghost use Rattle.secondary.specs.Entries.{kind_at, field_width, field_in};

use inno_types::{Column, Kind};
use key_codec::key_len;

/// The bytes of a mark, a writer and a roll pointer.
const HEAD: usize = 17;

/// The kind of the column at a place.
pub(crate) fn column_kind(columns: &[Column], place: u8) -> Kind
    requires { place < length columns.now }
    ensures { result ≡ kind_at columns.now place }
{
    columns[usize::from(place)].kind
}

/// How many bytes the fields of these columns have, without the one at a place.
fn others_len(columns: &[Column], skipped: u8) -> usize
    requires { length columns.now ≤ 255 }
    ensures len { result ≡ sum_by field_width (remove columns.now skipped) }
    ensures small { result ≤ 257 * length columns.now }
{
    let mut len = 0;
    for (place, column) in columns.iter().enumerate() {
        if place != usize::from(skipped) {
            len += 1 + key_len(column.kind);
        }
    }
    len
}

/// The field of the column at a place, which isn't the primary one, if the bytes of a record's value go so far.
pub(crate) fn field_at<'a>(
    columns: &[Column],
    primary: u8,
    place: u8,
    value: &'a [u8],
) -> Option<&'a [u8]>
    requires there { place < length columns.now }
    requires other { place ≢ primary }
    ensures { (head : List ℕ) (row : List Value) → length head ≡ 17 → IsRowOf columns.now row
        → value.now ≡ head ++ others_code primary columns.now row
        → IsSomeAnd result (λ field. field.now ≡ field_in columns.now place row) }
{
    let start = HEAD + others_len(&columns[..usize::from(place)], primary);
    let end = start + 1 + key_len(column_kind(columns, place));
    if value.len() < end {
        return None;
    }
    Some(&value[start..end])
}
