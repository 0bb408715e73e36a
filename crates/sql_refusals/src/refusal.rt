//! Why a statement is refused by its text and the schemas. No row is looked at, so an engine asks here first.
//! `statement` asks before the first step of each; CREATE TABLE and the plain interpreter ask again.

ghost use Rattle.std.specs.Prelude.{◌≡◌, ◌==◌, IfOk, Option, Some, None, is_some, is_none, nat_le, length, option_copied};
ghost use Rattle.std.specs.List.{list_all, list_any};
ghost use Rattle.std.specs.Str.{str_eq_ignore_ascii_case};
ghost use Rattle.inno_db.specs.Names.{table_place};
ghost use Rattle.inno_db.specs.Typing.{tuple_fits, set_known, set_fits};
ghost use Rattle.inno_db.specs.Refusals.{schema_named, name_refusal, create_refusal, selected_known, select_refusal, names_known, is_named_twice, names_twice, width_of, is_left_out, leaves_out, insert_refusal, update_refusal, delete_refusal, refusal};

use crate::typing::{fits_set, fits_tuple, fits_where, knows_all, knows_set, knows_where};
use inno_db::MOST_TABLES;
use inno_types::{
    Bytes, Column, Columns, Definitions, Filter, Listed, Names, Schema, Selected, Sets, SqlError,
    Stmt, Tuples,
};
use sql_values::{declare, is_same_column, place_of_name, place_of_table};
use std::alloc::{AllocError, Global};

/// The schema of the table of this name.
pub fn schema_of_table<'a>(schemas: &'a Listed<Schema>, name: &Bytes) -> Option<&'a Schema>
    ensures { option_copied result ≡ schema_named schemas.now name.now }
{
    match place_of_table(schemas, name) {
        Some(place) => schemas.as_slice().get(place),
        None => None,
    }
}

fn refuse_name(schemas: &Listed<Schema>, table: &Bytes, if_not_exists: bool) -> Option<SqlError>
    ensures { result ≡ name_refusal schemas.now (is_some (table_place schemas.now table.now)) if_not_exists }
{
    if place_of_table(schemas, table).is_some() {
        return if if_not_exists {
            None
        } else {
            Some(SqlError::TableThere)
        };
    }
    if MOST_TABLES <= schemas.len() {
        return Some(SqlError::CatalogFull {
            tables: MOST_TABLES as u32,
        });
    }
    None
}

fn refuse_create(
    alloc: Global,
    schemas: &Listed<Schema>,
    table: &Bytes,
    if_not_exists: bool,
    definitions: &Definitions,
) -> Result<Option<SqlError>, AllocError>
    ensures { IfOk result (λ error. error ≡ create_refusal schemas.now table.now if_not_exists definitions.now) }
{
    match declare(alloc, table, definitions)? {
        Some(_) => Ok(refuse_name(schemas, table, if_not_exists)),
        None => Ok(Some(SqlError::Syntax { at: 0 })),
    }
}

fn knows_selected(columns: &Columns, selected: &Selected) -> bool
    ensures { result ≡ selected_known columns.now selected.now }
{
    match selected {
        Selected::AllColumns => true,
        Selected::Columns(names) => knows_all(columns, names),
    }
}

fn refuse_select(selected: &Selected, filter: &Option<Filter>, schema: &Schema) -> Option<SqlError>
    ensures { result ≡ select_refusal selected.now filter.now schema.now }
{
    let columns = &schema.columns;
    if !(knows_selected(columns, selected) && knows_where(columns, filter)) {
        return Some(SqlError::NoColumn);
    }
    if !fits_where(columns, filter) {
        return Some(SqlError::Syntax { at: 0 });
    }
    None
}

fn knows_names(columns: &Columns, names: &Option<Names>) -> bool
    ensures { result ≡ names_known columns.now names.now }
{
    match names {
        Some(names) => knows_all(columns, names),
        None => true,
    }
}

fn is_listed(names: &[Bytes], name: &Bytes) -> bool
    ensures { result ≡ list_any (λ n. str_eq_ignore_ascii_case n name.now) names.now }
{
    names.iter().any(|other| is_same_column(other, name))
}

fn repeats(names: &[Bytes]) -> bool
    ensures { result ≡ is_named_twice names.now }
{
    for (place, name) in names.iter().enumerate() {
        if is_listed(&names[place + 1..], name) {
            return true;
        }
    }
    false
}

fn repeats_a_name(names: &Option<Names>) -> bool
    ensures { result ≡ names_twice names.now }
{
    match names {
        Some(names) => repeats(names.as_slice()),
        None => false,
    }
}

fn width(columns: &Columns, names: &Option<Names>) -> usize
    ensures { result ≡ width_of columns.now names.now }
{
    match names {
        Some(names) => names.len(),
        None => columns.len(),
    }
}

fn are_of_width(tuples: &Tuples, width: usize) -> bool
    ensures { result ≡ list_all (λ t. length t == width) tuples.now }
{
    tuples.as_slice().iter().all(|tuple| tuple.len() == width)
}

fn fit_all(columns: &Columns, names: &Option<Names>, tuples: &Tuples) -> bool
    ensures { result ≡ list_all (λ t. tuple_fits names.now t 0 columns.now) tuples.now }
{
    tuples
        .as_slice()
        .iter()
        .all(|tuple| fits_tuple(columns, names, tuple))
}

fn lacks(names: &Names, column: &Column) -> bool
    ensures { result ≡ is_left_out names.now column.now }
{
    column.not_null && place_of_name(names, &column.name).is_none()
}

fn lacks_any(columns: &Columns, names: &Names) -> bool
    ensures { result ≡ list_any (is_left_out names.now) columns.now }
{
    columns.as_slice().iter().any(|column| lacks(names, column))
}

fn lacks_a_value(columns: &Columns, names: &Option<Names>) -> bool
    ensures { result ≡ leaves_out columns.now names.now }
{
    match names {
        Some(names) => lacks_any(columns, names),
        None => false,
    }
}

fn refuse_insert(names: &Option<Names>, tuples: &Tuples, schema: &Schema) -> Option<SqlError>
    ensures { result ≡ insert_refusal names.now tuples.now schema.now }
{
    let columns = &schema.columns;
    if !knows_names(columns, names) {
        return Some(SqlError::NoColumn);
    }
    if repeats_a_name(names) {
        return Some(SqlError::TwiceNamed);
    }
    if !are_of_width(tuples, width(columns, names)) {
        return Some(SqlError::WrongCount);
    }
    if !fit_all(columns, names, tuples) {
        return Some(SqlError::Syntax { at: 0 });
    }
    if lacks_a_value(columns, names) {
        return Some(SqlError::NoDefault);
    }
    None
}

fn knows_sets(columns: &Columns, sets: &Sets) -> bool
    ensures { result ≡ list_all (set_known columns.now) sets.now }
{
    sets.as_slice().iter().all(|set| knows_set(columns, set))
}

fn fits_sets(schema: &Schema, sets: &Sets) -> bool
    ensures { result ≡ list_all (set_fits schema.now) sets.now }
{
    sets.as_slice().iter().all(|set| fits_set(schema, set))
}

fn refuse_update(sets: &Sets, filter: &Option<Filter>, schema: &Schema) -> Option<SqlError>
    ensures { result ≡ update_refusal sets.now filter.now schema.now }
{
    let columns = &schema.columns;
    if !(knows_sets(columns, sets) && knows_where(columns, filter)) {
        return Some(SqlError::NoColumn);
    }
    if !(fits_sets(schema, sets) && fits_where(columns, filter)) {
        return Some(SqlError::Syntax { at: 0 });
    }
    None
}

fn refuse_delete(filter: &Option<Filter>, schema: &Schema) -> Option<SqlError>
    ensures { result ≡ delete_refusal filter.now schema.now }
{
    let columns = &schema.columns;
    if !knows_where(columns, filter) {
        return Some(SqlError::NoColumn);
    }
    if !fits_where(columns, filter) {
        return Some(SqlError::Syntax { at: 0 });
    }
    None
}

/// Why the text and the schemas refuse a statement, if they do.
pub fn refuse(
    alloc: Global,
    schemas: &Listed<Schema>,
    stmt: &Stmt,
) -> Result<Option<SqlError>, AllocError>
    ensures { IfOk result (λ error. error ≡ refusal schemas.now stmt.now) }
{
    match stmt {
        Stmt::CreateTable {
            table,
            if_not_exists,
            definitions,
        } => refuse_create(alloc, schemas, table, *if_not_exists, definitions),
        Stmt::Select {
            selected,
            table,
            filter,
            ..
        } => match schema_of_table(schemas, table) {
            Some(schema) => Ok(refuse_select(selected, filter, schema)),
            None => Ok(Some(SqlError::NoTable)),
        },
        Stmt::Insert {
            table,
            columns,
            tuples,
        } => match schema_of_table(schemas, table) {
            Some(schema) => Ok(refuse_insert(columns, tuples, schema)),
            None => Ok(Some(SqlError::NoTable)),
        },
        Stmt::Update {
            table,
            sets,
            filter,
        } => match schema_of_table(schemas, table) {
            Some(schema) => Ok(refuse_update(sets, filter, schema)),
            None => Ok(Some(SqlError::NoTable)),
        },
        Stmt::Delete { table, filter } => match schema_of_table(schemas, table) {
            Some(schema) => Ok(refuse_delete(filter, schema)),
            None => Ok(Some(SqlError::NoTable)),
        },
        Stmt::Begin { .. }
        | Stmt::Commit
        | Stmt::Rollback
        | Stmt::RollbackTo { .. }
        | Stmt::Savepoint { .. }
        | Stmt::SetAutocommit(_)
        | Stmt::SetLevel { .. } => Ok(None),
    }
}
