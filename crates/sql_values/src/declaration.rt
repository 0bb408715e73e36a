//! The schema that a CREATE TABLE declares. Nothing else decides whether a table is one that the engine can hold.
//! The statement, its refusal and the plain interpreter all ask here; no database is met.

ghost use Rattle.std.specs.Prelude.{◌≡◌, ◌≤◌, ◌<◌, ◌++◌, ◌∷◌, [], IfOk, OnOk, Option, length, unwrap_or, sum_by, flat_map, option_copied};
ghost use Rattle.std.specs.List.{list_all, list_any};
ghost use Rattle.std.specs.Str.{str_eq_ignore_ascii_case};
ghost use Rattle.inno_db.specs.Names.{column_at, column_place};
ghost use Rattle.inno_db.specs.Declarations.{has_twins, kind_of, says_not_null, says_null, column_of, columns_of, primary_of, primaries_of, key_column_of, key_columns_of, declares_null, declared_name, key_name, key_of, keys_of, is_sized, is_indexable, key_bytes, row_bytes, are_good_columns, are_good_keys, schema_of, schema_if, schema_declared};

use crate::{is_same_column, place_of_column};
use inno_db::{MOST_BYTES_OF_ROW, MOST_COLUMNS, MOST_KEYS, is_short, is_sized};
use inno_types::{
    Bytes, Column, Columns, DeclaredKind, Definition, Definitions, Key, Keys, Kind, Listed, Names,
    Schema,
};
use std::alloc::{AllocError, Global};

fn kind_from(kind: DeclaredKind) -> Kind
    ensures { result ≡ kind_of kind }
{
    match kind {
        DeclaredKind::BigInt => Kind::BigInt,
        DeclaredKind::VarBinary(Some(size)) => Kind::VarBinary(size),
        DeclaredKind::VarBinary(None) => Kind::VarBinary(0),
    }
}

fn is_declared_not_null(nullable: Option<bool>) -> bool
    ensures { result ≡ says_not_null nullable }
{
    match nullable {
        Some(nullable) => !nullable,
        None => false,
    }
}

fn is_declared_null(nullable: Option<bool>) -> bool
    ensures { result ≡ says_null nullable }
{
    match nullable {
        Some(nullable) => nullable,
        None => false,
    }
}

fn push_column(
    columns: &mut Vec<Column>,
    primary: &Bytes,
    definition: &Definition,
) -> Result<(), AllocError>
    ensures { OnOk result (columns.new.items ≡ columns.old.items ++ column_of primary.now definition.now) }
{
    match definition {
        Definition::Column {
            name,
            kind,
            nullable,
            ..
        } => {
            let not_null = is_declared_not_null(*nullable) || is_same_column(name, primary);
            columns.push(Column {
                name: name.copied()?,
                kind: kind_from(*kind),
                not_null,
            })?;
            Ok(())
        }
        Definition::Primary { .. } | Definition::Key { .. } => Ok(()),
    }
}

fn declared_columns(
    alloc: Global,
    primary: &Bytes,
    definitions: &Definitions,
) -> Result<Columns, AllocError>
    ensures { IfOk result (λ columns. columns ≡ columns_of primary.now definitions.now) }
{
    let mut columns = Vec::new(alloc);
    for definition in definitions.as_slice() {
        push_column(&mut columns, primary, definition)?;
    }
    Ok(Listed::from_vec(columns))
}

fn push_primary(names: &mut Vec<Bytes>, definition: &Definition) -> Result<(), AllocError>
    ensures { OnOk result (names.new.items ≡ names.old.items ++ primary_of definition.now) }
{
    match definition {
        Definition::Column {
            name,
            primary: true,
            ..
        }
        | Definition::Primary { column: name } => {
            names.push(name.copied()?)?;
            Ok(())
        }
        Definition::Column { primary: false, .. } | Definition::Key { .. } => Ok(()),
    }
}

fn declared_primaries(alloc: Global, definitions: &Definitions) -> Result<Names, AllocError>
    ensures { IfOk result (λ names. names ≡ primaries_of definitions.now) }
{
    let mut names = Vec::new(alloc);
    for definition in definitions.as_slice() {
        push_primary(&mut names, definition)?;
    }
    Ok(Listed::from_vec(names))
}

fn push_key_column(names: &mut Vec<Bytes>, definition: &Definition) -> Result<(), AllocError>
    ensures { OnOk result (names.new.items ≡ names.old.items ++ key_column_of definition.now) }
{
    match definition {
        Definition::Key { column, .. } => {
            names.push(column.copied()?)?;
            Ok(())
        }
        Definition::Column { .. } | Definition::Primary { .. } => Ok(()),
    }
}

fn indexed_columns(alloc: Global, definitions: &Definitions) -> Result<Names, AllocError>
    ensures { IfOk result (λ names. names ≡ key_columns_of definitions.now) }
{
    let mut names = Vec::new(alloc);
    for definition in definitions.as_slice() {
        push_key_column(&mut names, definition)?;
    }
    Ok(Listed::from_vec(names))
}

/// The name that a key is given, or that of its column.
fn name_of_key(columns: &Columns, name: &Option<Bytes>, column: &Bytes) -> Result<Bytes, AllocError>
    ensures { IfOk result (λ key. key ≡ key_name columns.now name.now column.now) }
{
    match name {
        Some(name) => name.copied(),
        None => name_as_declared(columns, column),
    }
}

fn name_as_declared(columns: &Columns, column: &Bytes) -> Result<Bytes, AllocError>
    ensures { IfOk result (λ name. name ≡ declared_name column.now (column_at columns.now (column_place columns.now column.now))) }
{
    match found(columns, column) {
        Some(column) => column.name.copied(),
        None => column.copied(),
    }
}

/// The column of this name.
fn found<'a>(columns: &'a Columns, name: &Bytes) -> Option<&'a Column>
    ensures { option_copied result ≡ column_at columns.now (column_place columns.now name.now) }
{
    match place_of_column(columns, name) {
        Some(place) => columns.as_slice().get(place),
        None => None,
    }
}

/// The place of a column of a table that has few of them, or 0.
fn short_place(columns: &Columns, name: &Bytes) -> u8
    requires { length columns.now ≤ MOST_COLUMNS }
    ensures { result ≡ unwrap_or (column_place columns.now name.now) 0 }
{
    match place_of_column(columns, name) {
        Some(place) => place as u8,
        None => 0,
    }
}

fn push_key(
    keys: &mut Vec<Key>,
    columns: &Columns,
    definition: &Definition,
) -> Result<(), AllocError>
    requires { length columns.now ≤ MOST_COLUMNS }
    ensures { OnOk result (keys.new.items ≡ keys.old.items ++ key_of columns.now definition.now) }
{
    match definition {
        Definition::Key { name, column } => {
            keys.push(Key {
                name: name_of_key(columns, name, column)?,
                column: short_place(columns, column),
            })?;
            Ok(())
        }
        Definition::Column { .. } | Definition::Primary { .. } => Ok(()),
    }
}

fn declared_keys(
    alloc: Global,
    columns: &Columns,
    definitions: &Definitions,
) -> Result<Keys, AllocError>
    requires { length columns.now ≤ MOST_COLUMNS }
    ensures { IfOk result (λ keys. keys ≡ keys_of columns.now definitions.now) }
{
    let mut keys = Vec::new(alloc);
    for definition in definitions.as_slice() {
        push_key(&mut keys, columns, definition)?;
    }
    Ok(Listed::from_vec(keys))
}

fn can_be_indexed(columns: &Columns, name: &Bytes) -> bool
    ensures { result ≡ is_indexable (column_at columns.now (column_place columns.now name.now)) }
{
    match found(columns, name) {
        Some(column) => is_short(column.kind),
        None => false,
    }
}

fn all_can_be_indexed(columns: &Columns, names: &Names) -> bool
    ensures { result ≡ list_all (λ name. is_indexable (column_at columns.now (column_place columns.now name))) names.now }
{
    names
        .as_slice()
        .iter()
        .all(|name| can_be_indexed(columns, name))
}

fn bytes_of_key(kind: Kind) -> usize
    ensures exact { result ≡ key_bytes kind }
    ensures small { result ≤ 256 }
{
    match kind {
        Kind::BigInt => 8,
        Kind::VarBinary(size) => usize::from(size) + 1,
    }
}

fn bytes_of_row(columns: &Columns) -> usize
    requires { length columns.now ≤ MOST_COLUMNS }
    ensures { result ≡ row_bytes columns.now }
{
    let fields: usize = columns
        .as_slice()
        .iter()
        .map(|column| bytes_of_key(column.kind) + 1)
        .sum();
    fields.saturating_sub(1)
}

fn is_listed(columns: &[Column], name: &Bytes) -> bool
    ensures { result ≡ list_any (λ c. str_eq_ignore_ascii_case c.name name.now) columns.now }
{
    columns
        .iter()
        .any(|column| is_same_column(&column.name, name))
}

fn names_twice(columns: &[Column]) -> bool
    ensures { result ≡ has_twins columns.now }
{
    for (place, column) in columns.iter().enumerate() {
        if is_listed(&columns[place + 1..], &column.name) {
            return true;
        }
    }
    false
}

fn good_columns(columns: &Columns) -> bool
    ensures { result ≡ are_good_columns columns.now }
{
    columns.len() <= MOST_COLUMNS
        && !names_twice(columns.as_slice())
        && are_large_enough(columns)
        && bytes_of_row(columns) <= MOST_BYTES_OF_ROW
}

fn are_large_enough(columns: &Columns) -> bool
    ensures { result ≡ list_all (λ c. is_sized c.kind) columns.now }
{
    columns
        .as_slice()
        .iter()
        .all(|column| is_sized(column.kind))
}

fn makes_null(name: &Bytes, definition: &Definition) -> bool
    ensures { result ≡ declares_null name.now definition.now }
{
    match definition {
        Definition::Column {
            name: column,
            nullable,
            ..
        } => is_same_column(column, name) && is_declared_null(*nullable),
        Definition::Primary { .. } | Definition::Key { .. } => false,
    }
}

fn any_makes_null(name: &Bytes, definitions: &Definitions) -> bool
    ensures { result ≡ list_any (declares_null name.now) definitions.now }
{
    definitions
        .as_slice()
        .iter()
        .any(|definition| makes_null(name, definition))
}

fn good_keys(
    alloc: Global,
    primary: &Bytes,
    columns: &Columns,
    definitions: &Definitions,
) -> Result<bool, AllocError>
    ensures { IfOk result (λ good. good ≡ are_good_keys primary.now columns.now definitions.now) }
{
    let indexed = indexed_columns(alloc, definitions)?;
    Ok(
        indexed.len() <= MOST_KEYS
            && can_be_indexed(columns, primary)
            && all_can_be_indexed(columns, &indexed)
            && !any_makes_null(primary, definitions),
    )
}

fn schema_with(
    alloc: Global,
    table: &Bytes,
    definitions: &Definitions,
    primary: &Bytes,
) -> Result<Option<Schema>, AllocError>
    ensures { IfOk result (λ schema. schema ≡ schema_if table.now definitions.now primary.now (columns_of primary.now definitions.now)) }
{
    let columns = declared_columns(alloc, primary, definitions)?;
    if !good_columns(&columns) {
        return Ok(None);
    }
    if !good_keys(alloc, primary, &columns, definitions)? {
        return Ok(None);
    }
    Ok(Some(make_schema(alloc, table, primary, columns, definitions)?))
}

fn make_schema(
    alloc: Global,
    table: &Bytes,
    primary: &Bytes,
    columns: Columns,
    definitions: &Definitions,
) -> Result<Schema, AllocError>
    requires { length columns ≤ MOST_COLUMNS }
    ensures { IfOk result (λ schema. schema ≡ schema_of table.now primary.now columns definitions.now) }
{
    let keys = declared_keys(alloc, &columns, definitions)?;
    let primary = short_place(&columns, primary);
    Ok(Schema {
        name: table.copied()?,
        columns,
        primary,
        keys,
    })
}

/// The schema that the definitions of a CREATE TABLE declare, or None where they are refused with 1064.
pub fn declare(
    alloc: Global,
    table: &Bytes,
    definitions: &Definitions,
) -> Result<Option<Schema>, AllocError>
    ensures { IfOk result (λ schema. schema ≡ schema_declared table.now definitions.now) }
{
    let primaries = declared_primaries(alloc, definitions)?;
    match primaries.as_slice() {
        [primary] => schema_with(alloc, table, definitions, primary),
        _ => Ok(None),
    }
}
