//! The rows that a statement finds: those that match, in the order of their keys, and what SELECT gives of them.
//! The interpreter alone calls `select`, which copies what it gives and changes no row.

ghost use Rattle.std.specs.Prelude.{◌≡◌, ◌++◌, ◌∷◌, [], IfOk, map, filter};
ghost use Rattle.inno_db.specs.Names.{column_value};
ghost use Rattle.inno_db.specs.Outcome.{selected_of, matching};

use inno_db::to_value;
use inno_types::{Columns, Filter, Listed, Names, Row, Rows, Selected};
use sql_values::{in_column, is_match};
use std::alloc::{AllocError, Global};

/// The values of a row in the columns of these names.
fn pick(alloc: Global, columns: &Columns, names: &Names, row: &Row) -> Result<Row, AllocError>
    ensures { IfOk result (λ picked. picked ≡ map (column_value columns.now row.now) names.now) }
{
    let mut values = Vec::new(alloc);
    for name in names.as_slice() {
        values.push(to_value(in_column(columns, row, name))?)?;
    }
    Ok(Listed::from_vec(values))
}

/// What a SELECT gives of a row.
fn give(alloc: Global, columns: &Columns, selected: &Selected, row: &Row) -> Result<Row, AllocError>
    ensures { IfOk result (λ given. given ≡ selected_of columns.now selected.now row.now) }
{
    match selected {
        Selected::AllColumns => row.copied(),
        Selected::Columns(names) => pick(alloc, columns, names, row),
    }
}

/// What a SELECT gives of the rows that match.
pub fn select(
    alloc: Global,
    columns: &Columns,
    selected: &Selected,
    filter: &Option<Filter>,
    rows: &Rows,
) -> Result<Rows, AllocError>
    ensures { IfOk result (λ given. given ≡ map (selected_of columns.now selected.now) (matching columns.now filter.now rows.now)) }
{
    let mut given = Vec::new(alloc);
    for row in rows.as_slice() {
        if is_match(columns, filter, row) {
            given.push(give(alloc, columns, selected, row)?)?;
        }
    }
    Ok(Listed::from_vec(given))
}
