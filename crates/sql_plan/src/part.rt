//! The parts of a condition's topmost AND, and what each says of a column that it bounds.
//! A condition is read without recursion, however deep its ANDs nest.

ghost use Rattle.std.specs.Prelude.{◌≡◌, IfOk, Some, map};
ghost use Rattle.std.specs.Option.{option_map};
ghost use Rattle.inno_db.specs.Conditions.{literal_value};
ghost use Rattle.sql_plan.specs.Intervals.{compared_with};
ghost use Rattle.sql_plan.specs.Parts.{on_column, range_of_comparison, range_of_part, ranges_of, sides_of};
ghost use Rattle.sql_plan.specs.SeenIntervals.{seen_interval};
ghost use Rattle.sql_plan.specs.SeenParts.{seen_part, part_if};

use crate::{Interval, Values, turn, values_compared, values_from_list, values_from_to};
use inno_db::Datum;
use inno_types::{Bytes, Columns, Comparison, Filter, Literal, Operand};
use sql_values::{of_literal, place_of_column};
use std::alloc::{AllocError, Global};

/// The values that a part of a condition allows a column, which stands at this place of its table.
#[derive(Clone, Copy)]
pub struct Bounding<T> {
    pub place: usize,
    pub values: Interval<T>,
}

pub type Part<'a> = Bounding<Datum<'a>>;

fn part_at<'a>(columns: &Columns, name: &Bytes, values: Values<'a>) -> Option<Part<'a>>
    ensures { part_if result ≡ on_column columns.now name.now (Some (seen_interval values.entry)) }
{
    match place_of_column(columns, name) {
        Some(place) => Some(Bounding { place, values }),
        None => None,
    }
}

fn compared_part<'a>(
    columns: &Columns,
    name: &Bytes,
    comparison: Comparison,
    literal: &'a Literal,
) -> Option<Part<'a>>
    ensures { part_if result ≡ on_column columns.now name.now (compared_with comparison (literal_value literal.now)) }
{
    match values_compared(comparison, of_literal(literal)) {
        Some(values) => part_at(columns, name, values),
        None => None,
    }
}

fn part_of_comparison<'a>(
    columns: &Columns,
    left: &'a Operand,
    comparison: Comparison,
    right: &'a Operand,
) -> Option<Part<'a>>
    ensures { part_if result ≡ range_of_comparison columns.now left.now comparison right.now }
{
    match (left, right) {
        (Operand::Column(name), Operand::Literal(literal)) => {
            compared_part(columns, name, comparison, literal)
        }
        (Operand::Literal(literal), Operand::Column(name)) => {
            compared_part(columns, name, turn(comparison), literal)
        }
        _ => None,
    }
}

/// What a part of a condition says of a column, if it bounds one.
pub fn part_of<'a>(columns: &Columns, part: &'a Filter) -> Option<Part<'a>>
    ensures { part_if result ≡ range_of_part columns.now part.now }
{
    match part {
        Filter::Compare {
            left,
            comparison,
            right,
        } => part_of_comparison(columns, left, *comparison, right),
        Filter::Between {
            column,
            negated: false,
            low,
            high,
        } => {
            let values = values_from_to(of_literal(low), of_literal(high));
            part_at(columns, column, values)
        }
        Filter::In {
            column,
            negated: false,
            literals,
        } => part_at(columns, column, values_from_list(literals)),
        _ => None,
    }
}

/// The two sides of an AND.
fn sides(filter: &Filter) -> Option<(&Filter, &Filter)>
    ensures { option_map (λ pair. (pair.0.now, pair.1.now)) result ≡ sides_of filter.now }
{
    match filter {
        Filter::And(left, right) => Some((left, right)),
        _ => None,
    }
}

/// What the parts of a condition's topmost AND say of the columns that they bound, in the order of the text.
#[tactic(auto, using(crate::proofs::Waiting::ranges_pushed, crate::proofs::Waiting::weight_pushed, crate::proofs::Waiting::ranges_joined, crate::proofs::Waiting::weight_joined, crate::proofs::Waiting::ranges_alone, crate::proofs::Waiting::weight_positive))]
pub fn parts_of<'a>(
    alloc: Global,
    columns: &Columns,
    filter: &'a Filter,
) -> Result<Vec<Part<'a>>, AllocError>
    ensures { IfOk result (λ parts. map seen_part parts.items ≡ ranges_of columns.now filter.now) }
{
    let mut parts = Vec::new(alloc);
    // What is still to be read, the next condition last.
    let mut waiting = Vec::new(alloc);
    waiting.push(filter)?;
    while let Some(next) = waiting.pop() {
        if let Some((left, right)) = sides(next) {
            waiting.push(right)?;
            waiting.push(left)?;
        } else if let Some(part) = part_of(columns, next) {
            parts.push(part)?;
        }
    }
    Ok(parts)
}
