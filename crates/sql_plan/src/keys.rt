//! The keys that the tuples of an INSERT give, as a condition on the rows of its table.
//! `planning` alone asks, for an INSERT; no index is looked into.

ghost use Rattle.std.specs.Prelude.{◌≡◌, IfOk};
ghost use Rattle.inno_db.specs.Storing.{literal_at};
ghost use Rattle.sql_plan.specs.Keys.{is_value, values_given, has_given_key, is_place, is_plain_key};

use inno_types::{Column, Columns, Filter, Listed, Literal, Literals, Names, Tuples};
use sql_values::{place_of_column, place_of_value};
use std::alloc::{AllocError, Global};

/// Whether the column that stands at this place takes no NULL and is the first one of its name.
pub(crate) fn is_plain_key(columns: &Columns, place: usize, column: &Column) -> bool
    ensures { result ≡ is_plain_key columns.now place column.now }
{
    column.not_null && is_place(place_of_column(columns, &column.name), place)
}

fn is_place(found: Option<usize>, place: usize) -> bool
    ensures { result ≡ is_place found place }
{
    match found {
        Some(other) => other == place,
        None => false,
    }
}

/// The condition that a row's key is one of those that the tuples give.
pub(crate) fn has_given_key(
    alloc: Global,
    names: &Option<Names>,
    tuples: &Tuples,
    place: usize,
    column: &Column,
) -> Result<Filter, AllocError>
    ensures { IfOk result (λ condition. condition ≡ has_given_key names.now tuples.now place column.now) }
{
    let literals = values_given(alloc, place_of_value(names, place, column), tuples)?;
    Ok(Filter::In {
        column: column.name.copied()?,
        negated: false,
        literals,
    })
}

/// The values that tuples give at a place.
fn values_given(alloc: Global, at: Option<usize>, tuples: &Tuples) -> Result<Literals, AllocError>
    ensures { IfOk result (λ given. given ≡ values_given at tuples.now) }
{
    let mut given = Vec::new(alloc);
    for tuple in tuples.as_slice() {
        if is_value_at(tuple, at) {
            given.push(literal_at(tuple, at)?)?;
        }
    }
    Ok(Listed::from_vec(given))
}

/// Whether a tuple gives a value at a place, which is no NULL and no number outside 64 bits.
fn is_value_at(tuple: &Literals, at: Option<usize>) -> bool
    ensures { result ≡ is_value (literal_at tuple.now at) }
{
    match at {
        Some(place) => match tuple.as_slice().get(place) {
            Some(literal) => is_value(literal),
            None => false,
        },
        None => false,
    }
}

fn is_value(literal: &Literal) -> bool
    ensures { result ≡ is_value literal.now }
{
    match literal {
        Literal::Int(_) | Literal::Text(_) => true,
        Literal::Null | Literal::TooBig => false,
    }
}

fn literal_at(tuple: &Literals, at: Option<usize>) -> Result<Literal, AllocError>
    ensures { IfOk result (λ literal. literal ≡ literal_at tuple.now at) }
{
    match at {
        Some(place) => match tuple.as_slice().get(place) {
            Some(literal) => copy_of(literal),
            None => Ok(Literal::Null),
        },
        None => Ok(Literal::Null),
    }
}

fn copy_of(literal: &Literal) -> Result<Literal, AllocError>
    ensures { IfOk result (λ copy. copy ≡ literal.now) }
{
    match literal {
        Literal::Null => Ok(Literal::Null),
        Literal::Int(number) => Ok(Literal::Int(*number)),
        Literal::TooBig => Ok(Literal::TooBig),
        Literal::Text(text) => Ok(Literal::Text(text.copied()?)),
    }
}
