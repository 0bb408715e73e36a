//! The value of a condition on a row, in three-valued logic. No row is changed here.
//! The plain interpreter asks whether a row matches (`is_match`), and `sql_plan` for the value (`evaluate`).

ghost use Rattle.std.specs.Prelude.{◌≡◌, Option};
ghost use Rattle.inno_db.specs.Database.{value_cmp};
ghost use Rattle.inno_db.specs.Conditions.{holds, compared, between, is_in, truth_of, matches};
ghost use Rattle.inno_db.specs.Seen.{seen};

use crate::operand::{in_column, of_literal, of_operand};
use inno_db::{Datum, Truth, is_null_datum, order};
use inno_types::{Columns, Comparison, Filter, Literal, Literals, Row};
use std::cmp::Ordering;

fn is_met(comparison: Comparison, order: Ordering) -> bool
    ensures { result ≡ holds comparison order }
{
    match comparison {
        Comparison::Equal => order.is_eq(),
        Comparison::NotEqual => order.is_ne(),
        Comparison::Less => order.is_lt(),
        Comparison::LessOrEqual => order.is_le(),
        Comparison::Greater => order.is_gt(),
        Comparison::GreaterOrEqual => order.is_ge(),
    }
}

/// A comparison with NULL is unknown.
pub fn compare(comparison: Comparison, left: Datum<'_>, right: Datum<'_>) -> Truth
    ensures { result ≡ compared comparison (seen left.entry) (seen right.entry) }
{
    if is_null_datum(left) || is_null_datum(right) {
        return Truth::Unknown;
    }
    Truth::of(is_met(comparison, order(left, right)))
}

fn is_between(datum: Datum<'_>, low: &Literal, high: &Literal) -> Truth
    ensures { result ≡ between (seen datum.entry) low.now high.now }
{
    let above = compare(Comparison::GreaterOrEqual, datum, of_literal(low));
    let below = compare(Comparison::LessOrEqual, datum, of_literal(high));
    above.and(below)
}

fn is_among(datum: Datum<'_>, literals: &Literals) -> Truth
    ensures { result ≡ is_in (seen datum.entry) literals.now }
{
    let mut found = Truth::False;
    for literal in literals.as_slice() {
        found = found.or(compare(Comparison::Equal, datum, of_literal(literal)));
    }
    found
}

/// What a condition says of a row.
pub fn evaluate(columns: &Columns, row: &Row, filter: &Filter) -> Truth
    ensures { result ≡ truth_of columns.now row.now filter.now }
{
    match filter {
        Filter::Compare {
            left,
            comparison,
            right,
        } => {
            let left = of_operand(columns, row, left);
            let right = of_operand(columns, row, right);
            compare(*comparison, left, right)
        }
        Filter::Between {
            column,
            negated,
            low,
            high,
        } => is_between(in_column(columns, row, column), low, high).negated_if(*negated),
        Filter::In {
            column,
            negated,
            literals,
        } => is_among(in_column(columns, row, column), literals).negated_if(*negated),
        Filter::IsNull { column, negated } => {
            Truth::of(is_null_datum(in_column(columns, row, column))).negated_if(*negated)
        }
        Filter::Not(inner) => evaluate(columns, row, inner).negated(),
        Filter::And(left, right) => evaluate(columns, row, left).and(evaluate(columns, row, right)),
        Filter::Or(left, right) => evaluate(columns, row, left).or(evaluate(columns, row, right)),
    }
}

/// Whether a row matches: its condition is true, or there is none.
pub fn is_match(columns: &Columns, filter: &Option<Filter>, row: &Row) -> bool
    ensures { result ≡ matches columns.now filter.now row.now }
{
    match filter {
        Some(filter) => evaluate(columns, row, filter).is_true(),
        None => true,
    }
}
