//! Which columns a statement names, and whether the types of its values agree. Only the text and the schema are read.
//! `refusal` alone asks.

ghost use Rattle.std.specs.Prelude.{◌≡◌, ◌∷◌, [], Option, Some, slice_get, slice_index_or};
ghost use Rattle.std.specs.List.{list_all};
ghost use Rattle.inno_db.specs.Typing.{is_known, operand_known, filter_known, where_known, expr_known, set_known, type_of, is_same_type, literal_fits, given_fits, type_if, column_type, is_of_type, all_fit, operand_fits, sides_fit, filter_fits, where_fits, expr_fits, whole_fits, is_primary, set_fits, tuple_fits};
ghost use Rattle.inno_db.specs.Storing.{place_in_tuple, literal_at};

use inno_db::DataType;
use inno_types::{
    Bytes, Column, Columns, Expr, Filter, Kind, Literal, Literals, Names, Operand, Schema, Set,
};
use sql_values::{place_of_column, place_of_value};

fn knows(columns: &Columns, name: &Bytes) -> bool
    ensures { result ≡ is_known columns.now name.now }
{
    place_of_column(columns, name).is_some()
}

fn knows_operand(columns: &Columns, operand: &Operand) -> bool
    ensures { result ≡ operand_known columns.now operand.now }
{
    match operand {
        Operand::Literal(_) => true,
        Operand::Column(name) => knows(columns, name),
    }
}

fn knows_filter(columns: &Columns, filter: &Filter) -> bool
    ensures { result ≡ filter_known columns.now filter.now }
{
    match filter {
        Filter::Compare { left, right, .. } => {
            knows_operand(columns, left) && knows_operand(columns, right)
        }
        Filter::Between { column, .. }
        | Filter::In { column, .. }
        | Filter::IsNull { column, .. } => knows(columns, column),
        Filter::Not(inner) => knows_filter(columns, inner),
        Filter::And(left, right) | Filter::Or(left, right) => {
            knows_filter(columns, left) && knows_filter(columns, right)
        }
    }
}

/// Whether each column that a WHERE names is there.
pub fn knows_where(columns: &Columns, filter: &Option<Filter>) -> bool
    ensures { result ≡ where_known columns.now filter.now }
{
    match filter {
        Some(filter) => knows_filter(columns, filter),
        None => true,
    }
}

fn knows_expr(columns: &Columns, expr: &Expr) -> bool
    ensures { result ≡ expr_known columns.now expr.now }
{
    match expr {
        Expr::Literal(_) => true,
        Expr::Column(name) => knows(columns, name),
        Expr::Negate(inner) => knows_expr(columns, inner),
        Expr::Add(left, right) | Expr::Subtract(left, right) | Expr::Multiply(left, right) => {
            knows_expr(columns, left) && knows_expr(columns, right)
        }
    }
}

/// Whether each column that an assignment names is there.
pub fn knows_set(columns: &Columns, set: &Set) -> bool
    ensures { result ≡ set_known columns.now set.now }
{
    knows(columns, &set.column) && knows_expr(columns, &set.value)
}

/// Whether all these columns are there.
pub fn knows_all(columns: &Columns, names: &Names) -> bool
    ensures { result ≡ list_all (is_known columns.now) names.now }
{
    names.as_slice().iter().all(|name| knows(columns, name))
}

fn type_of_kind(kind: Kind) -> DataType
    ensures { result ≡ type_of kind }
{
    match kind {
        Kind::BigInt => DataType::Number,
        Kind::VarBinary(_) => DataType::Text,
    }
}

fn is_same(a: DataType, b: DataType) -> bool
    ensures { result ≡ is_same_type a b }
{
    match a {
        DataType::Number => match b {
            DataType::Number => true,
            DataType::Text => false,
        },
        DataType::Text => match b {
            DataType::Number => false,
            DataType::Text => true,
        },
    }
}

fn fits_literal(data_type: DataType, literal: &Literal) -> bool
    ensures { result ≡ literal_fits data_type literal.now }
{
    match literal {
        Literal::Null => true,
        Literal::Int(_) => is_same(data_type, DataType::Number),
        Literal::TooBig => false,
        Literal::Text(_) => is_same(data_type, DataType::Text),
    }
}

fn fits_given(data_type: DataType, literal: &Literal) -> bool
    ensures { result ≡ given_fits data_type literal.now }
{
    match literal {
        Literal::Null => true,
        Literal::Int(_) | Literal::TooBig => is_same(data_type, DataType::Number),
        Literal::Text(_) => is_same(data_type, DataType::Text),
    }
}

fn type_of_column(columns: &Columns, name: &Bytes) -> Option<DataType>
    ensures { result ≡ column_type columns.now name.now }
{
    match place_of_column(columns, name) {
        Some(place) => type_at_place(columns, place),
        None => None,
    }
}

fn type_at_place(columns: &Columns, place: usize) -> Option<DataType>
    ensures { result ≡ type_if (slice_get columns.now place) }
{
    match columns.as_slice().get(place) {
        Some(column) => Some(type_of_kind(column.kind)),
        None => None,
    }
}

fn is_type(data_type: DataType, found: Option<DataType>) -> bool
    ensures { result ≡ is_of_type data_type found }
{
    match found {
        Some(found) => is_same(found, data_type),
        None => false,
    }
}

fn fits_operand(columns: &Columns, data_type: DataType, operand: &Operand) -> bool
    ensures { result ≡ operand_fits columns.now data_type operand.now }
{
    match operand {
        Operand::Literal(literal) => fits_literal(data_type, literal),
        Operand::Column(name) => is_type(data_type, type_of_column(columns, name)),
    }
}

fn fits_sides(columns: &Columns, left: &Operand, right: &Operand) -> bool
    ensures { result ≡ sides_fit columns.now left.now right.now }
{
    let numbers = fits_operand(columns, DataType::Number, left)
        && fits_operand(columns, DataType::Number, right);
    let texts = fits_operand(columns, DataType::Text, left)
        && fits_operand(columns, DataType::Text, right);
    numbers || texts
}

fn fits_all(literals: &Literals, found: Option<DataType>) -> bool
    ensures { result ≡ all_fit literals.now found }
{
    match found {
        Some(data_type) => are_of_type(literals, data_type),
        None => false,
    }
}

fn are_of_type(literals: &Literals, data_type: DataType) -> bool
    ensures { result ≡ list_all (literal_fits data_type) literals.now }
{
    literals
        .as_slice()
        .iter()
        .all(|literal| fits_literal(data_type, literal))
}

fn fits_ends(low: &Literal, high: &Literal, found: Option<DataType>) -> bool
    ensures { result ≡ all_fit (low.now ∷ high.now ∷ []) found }
{
    match found {
        Some(data_type) => fits_literal(data_type, low) && fits_literal(data_type, high),
        None => false,
    }
}

fn fits_filter(columns: &Columns, filter: &Filter) -> bool
    ensures { result ≡ filter_fits columns.now filter.now }
{
    match filter {
        Filter::Compare { left, right, .. } => fits_sides(columns, left, right),
        Filter::Between {
            column,
            low,
            high,
            ..
        } => fits_ends(low, high, type_of_column(columns, column)),
        Filter::In {
            column,
            literals,
            ..
        } => fits_all(literals, type_of_column(columns, column)),
        Filter::IsNull { .. } => true,
        Filter::Not(inner) => fits_filter(columns, inner),
        Filter::And(left, right) | Filter::Or(left, right) => {
            fits_filter(columns, left) && fits_filter(columns, right)
        }
    }
}

/// Whether each comparison of a WHERE is of operands of one type.
pub fn fits_where(columns: &Columns, filter: &Option<Filter>) -> bool
    ensures { result ≡ where_fits columns.now filter.now }
{
    match filter {
        Some(filter) => fits_filter(columns, filter),
        None => true,
    }
}

fn fits_expr(columns: &Columns, data_type: DataType, expr: &Expr) -> bool
    ensures { result ≡ expr_fits columns.now data_type expr.now }
{
    match expr {
        Expr::Literal(literal) => fits_literal(data_type, literal),
        Expr::Column(name) => is_type(data_type, type_of_column(columns, name)),
        Expr::Negate(inner) => {
            is_same(data_type, DataType::Number) && fits_expr(columns, data_type, inner)
        }
        Expr::Add(left, right) | Expr::Subtract(left, right) | Expr::Multiply(left, right) => {
            is_same(data_type, DataType::Number)
                && fits_expr(columns, data_type, left)
                && fits_expr(columns, data_type, right)
        }
    }
}

fn fits_whole(columns: &Columns, expr: &Expr, found: Option<DataType>) -> bool
    ensures { result ≡ whole_fits columns.now expr.now found }
{
    match found {
        Some(data_type) => fits_right_side(columns, expr, data_type),
        None => false,
    }
}

fn fits_right_side(columns: &Columns, expr: &Expr, data_type: DataType) -> bool
    ensures { result ≡ whole_fits columns.now expr.now (Some data_type) }
{
    match expr {
        Expr::Literal(literal) => fits_given(data_type, literal),
        other => fits_expr(columns, data_type, other),
    }
}

fn is_place_of_key(primary: u8, place: Option<usize>) -> bool
    ensures { result ≡ is_primary primary place }
{
    match place {
        Some(place) => place == usize::from(primary),
        None => false,
    }
}

/// Whether an assignment gives a value of the column's type, to another column than the primary key.
pub fn fits_set(schema: &Schema, set: &Set) -> bool
    ensures { result ≡ set_fits schema.now set.now }
{
    let columns = &schema.columns;
    !is_place_of_key(schema.primary, place_of_column(columns, &set.column))
        && fits_whole(columns, &set.value, type_of_column(columns, &set.column))
}

/// Whether the values of a tuple are of the types of their columns.
pub fn fits_tuple(columns: &Columns, names: &Option<Names>, tuple: &Literals) -> bool
    ensures { result ≡ tuple_fits names.now tuple.now 0 columns.now }
{
    for (place, column) in columns.as_slice().iter().enumerate() {
        if !fits_column(names, tuple, place, column) {
            return false;
        }
    }
    true
}

fn fits_column(names: &Option<Names>, tuple: &Literals, place: usize, column: &Column) -> bool
    ensures { result ≡ given_fits (type_of column.now.kind) (literal_at tuple.now (place_in_tuple names.now place column.now)) }
{
    let data_type = type_of_kind(column.kind);
    match place_of_value(names, place, column) {
        Some(place) => fits_given_at(data_type, tuple, place),
        None => true,
    }
}

fn fits_given_at(data_type: DataType, tuple: &Literals, place: usize) -> bool
    ensures { result ≡ given_fits data_type (slice_index_or tuple.now place Literal.Null) }
{
    match tuple.as_slice().get(place) {
        Some(literal) => fits_given(data_type, literal),
        None => true,
    }
}
