//! Columns and tables by their names. Whoever reads a statement looks names up here.
//! For columns ASCII case makes no difference, for tables it does. Lists are only searched.

ghost use Rattle.std.specs.Prelude.{◌≡◌, bytes_eq};
ghost use Rattle.std.specs.Str.{str_eq_ignore_ascii_case};
ghost use Rattle.inno_db.specs.Names.{column_place, name_place, table_place};

use inno_types::{Bytes, Columns, Listed, Names, Schema};

/// Whether two names of columns are the same, which ASCII case doesn't tell apart.
pub fn is_same_column(a: &Bytes, b: &Bytes) -> bool
    ensures { result ≡ str_eq_ignore_ascii_case a.now b.now }
{
    a.as_slice().eq_ignore_ascii_case(b.as_slice())
}

pub fn is_same_table(a: &Bytes, b: &Bytes) -> bool
    ensures { result ≡ bytes_eq a.now b.now }
{
    a.as_slice() == b.as_slice()
}

/// The place of the column of this name.
pub fn place_of_column(columns: &Columns, name: &Bytes) -> Option<usize>
    ensures { result ≡ column_place columns.now name.now }
{
    columns
        .as_slice()
        .iter()
        .position(|column| is_same_column(&column.name, name))
}

/// The place of a column's name in a list of names.
pub fn place_of_name(names: &Names, name: &Bytes) -> Option<usize>
    ensures { result ≡ name_place names.now name.now }
{
    names
        .as_slice()
        .iter()
        .position(|other| is_same_column(other, name))
}

/// The number of the table of this name.
pub fn place_of_table(schemas: &Listed<Schema>, name: &Bytes) -> Option<usize>
    ensures { result ≡ table_place schemas.now name.now }
{
    schemas
        .as_slice()
        .iter()
        .position(|schema| is_same_table(&schema.name, name))
}
