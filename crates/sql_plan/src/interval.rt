//! Intervals of values, and where they meet. Values are looked at where they stand, in a statement's literals;
//! no memory is taken.

ghost use Rattle.std.specs.Prelude.{◌≡◌, Option};
ghost use Rattle.inno_types.specs.declared.value.Value.{Value};
ghost use Rattle.inno_db.specs.Conditions.{is_null};
ghost use Rattle.inno_db.specs.Seen.{seen};
ghost use Rattle.sql_plan.specs.Intervals.{is_above, is_below, is_crossed, is_empty, is_single, higher, lower, meet, nothing, unless_null, values_between, compared_with, turned, is_less, is_greater, former, least, greatest, values_among};
ghost use Rattle.sql_plan.specs.SeenIntervals.{seen_limit, seen_interval, interval_if, seen_if};

use inno_db::{Datum, is_null_datum, order};
use inno_types::{Comparison, Literals};
use sql_values::of_literal;

/// One end of an interval.
#[derive(Clone, Copy)]
pub enum Limit<T> {
    Open,
    With(T),
    Without(T),
}

/// The values from one limit to another, but NULL; none where a condition is known to allow none.
#[derive(Clone, Copy)]
pub struct Interval<T> {
    pub none: bool,
    pub low: Limit<T>,
    pub high: Limit<T>,
}

pub type Values<'a> = Interval<Datum<'a>>;

fn no_values<'a>() -> Values<'a>
    ensures { seen_interval result ≡ nothing }
{
    Interval {
        none: true,
        low: Limit::Open,
        high: Limit::Open,
    }
}

fn between<'a>(low: Limit<Datum<'a>>, high: Limit<Datum<'a>>) -> Values<'a>
    ensures { seen_interval result ≡ values_between (seen_limit low.entry) (seen_limit high.entry) }
{
    Interval {
        none: false,
        low,
        high,
    }
}

/// The comparison of the other side with this one.
pub fn turn(comparison: Comparison) -> Comparison
    ensures { result ≡ turned comparison }
{
    match comparison {
        Comparison::Equal => Comparison::Equal,
        Comparison::NotEqual => Comparison::NotEqual,
        Comparison::Less => Comparison::Greater,
        Comparison::LessOrEqual => Comparison::GreaterOrEqual,
        Comparison::Greater => Comparison::Less,
        Comparison::GreaterOrEqual => Comparison::LessOrEqual,
    }
}

fn none_if_null<'a>(datum: Datum<'a>, values: Values<'a>) -> Values<'a>
    ensures { seen_interval result ≡ unless_null (seen datum.entry) (seen_interval values.entry) }
{
    if is_null_datum(datum) {
        no_values()
    } else {
        values
    }
}

/// The values that compare so with this one; `<>` bounds nothing.
pub fn values_compared<'a>(comparison: Comparison, datum: Datum<'a>) -> Option<Values<'a>>
    ensures { interval_if result ≡ compared_with comparison (seen datum.entry) }
{
    let (low, high) = match comparison {
        Comparison::Equal => (Limit::With(datum), Limit::With(datum)),
        Comparison::NotEqual => return None,
        Comparison::Less => (Limit::Open, Limit::Without(datum)),
        Comparison::LessOrEqual => (Limit::Open, Limit::With(datum)),
        Comparison::Greater => (Limit::Without(datum), Limit::Open),
        Comparison::GreaterOrEqual => (Limit::With(datum), Limit::Open),
    };
    Some(none_if_null(datum, between(low, high)))
}

/// The values from one to another, both included.
pub fn values_from_to<'a>(low: Datum<'a>, high: Datum<'a>) -> Values<'a>
    ensures { seen_interval result ≡ unless_null (seen low.entry) (unless_null (seen high.entry)
        (values_between (Limit.With (seen low.entry)) (Limit.With (seen high.entry)))) }
{
    let values = between(Limit::With(low), Limit::With(high));
    none_if_null(low, none_if_null(high, values))
}

/// Whether a low limit lets fewer values in than another.
fn is_higher<'a>(a: Limit<Datum<'a>>, b: Limit<Datum<'a>>) -> bool
    ensures { result ≡ is_above (seen_limit a.entry) (seen_limit b.entry) }
{
    match a {
        Limit::Open => false,
        Limit::With(v) => match b {
            Limit::Open => true,
            Limit::With(w) | Limit::Without(w) => order(v, w).is_gt(),
        },
        Limit::Without(v) => match b {
            Limit::Open => true,
            Limit::With(w) => order(v, w).is_ge(),
            Limit::Without(w) => order(v, w).is_gt(),
        },
    }
}

/// Whether a high limit lets fewer values in than another.
fn is_lower<'a>(a: Limit<Datum<'a>>, b: Limit<Datum<'a>>) -> bool
    ensures { result ≡ is_below (seen_limit a.entry) (seen_limit b.entry) }
{
    match a {
        Limit::Open => false,
        Limit::With(v) => match b {
            Limit::Open => true,
            Limit::With(w) | Limit::Without(w) => order(v, w).is_lt(),
        },
        Limit::Without(v) => match b {
            Limit::Open => true,
            Limit::With(w) => order(v, w).is_le(),
            Limit::Without(w) => order(v, w).is_lt(),
        },
    }
}

fn higher_of<'a>(a: Limit<Datum<'a>>, b: Limit<Datum<'a>>) -> Limit<Datum<'a>>
    ensures { seen_limit result ≡ higher (seen_limit a.entry) (seen_limit b.entry) }
{
    if is_higher(a, b) { a } else { b }
}

fn lower_of<'a>(a: Limit<Datum<'a>>, b: Limit<Datum<'a>>) -> Limit<Datum<'a>>
    ensures { seen_limit result ≡ lower (seen_limit a.entry) (seen_limit b.entry) }
{
    if is_lower(a, b) { a } else { b }
}

/// The values of both.
pub fn intersect<'a>(a: Values<'a>, b: Values<'a>) -> Values<'a>
    ensures { seen_interval result ≡ meet (seen_interval a.entry) (seen_interval b.entry) }
{
    Interval {
        none: a.none || b.none,
        low: higher_of(a.low, b.low),
        high: lower_of(a.high, b.high),
    }
}

fn crosses<'a>(low: Limit<Datum<'a>>, high: Limit<Datum<'a>>) -> bool
    ensures { result ≡ is_crossed (seen_limit low.entry) (seen_limit high.entry) }
{
    match low {
        Limit::Open => false,
        Limit::With(v) => match high {
            Limit::Open => false,
            Limit::With(w) => order(v, w).is_gt(),
            Limit::Without(w) => order(v, w).is_ge(),
        },
        Limit::Without(v) => match high {
            Limit::Open => false,
            Limit::With(w) | Limit::Without(w) => order(v, w).is_ge(),
        },
    }
}

/// Whether no value lies in the interval, as its limits are written.
pub fn has_no_value<'a>(values: Values<'a>) -> bool
    ensures { result ≡ is_empty (seen_interval values.entry) }
{
    values.none || crosses(values.low, values.high)
}

/// Whether both limits include one and the same value.
pub fn has_one_value<'a>(values: Values<'a>) -> bool
    ensures { result ≡ is_single (seen_interval values.entry) }
{
    match (values.low, values.high) {
        (Limit::With(v), Limit::With(w)) => !values.none && order(v, w).is_eq(),
        _ => false,
    }
}

fn lesser_of<'a>(least: Option<Datum<'a>>, datum: Datum<'a>) -> Datum<'a>
    ensures { seen result ≡ former is_less (seen_if least.entry) (seen datum.entry) }
{
    match least {
        Some(other) if !order(datum, other).is_lt() => other,
        _ => datum,
    }
}

fn greater_of<'a>(greatest: Option<Datum<'a>>, datum: Datum<'a>) -> Datum<'a>
    ensures { seen result ≡ former is_greater (seen_if greatest.entry) (seen datum.entry) }
{
    match greatest {
        Some(other) if !order(datum, other).is_gt() => other,
        _ => datum,
    }
}

fn least_of<'a>(literals: &'a Literals) -> Option<Datum<'a>>
    ensures { seen_if result ≡ least literals.now }
{
    let mut found = None;
    for literal in literals.as_slice() {
        let datum = of_literal(literal);
        if !is_null_datum(datum) {
            found = Some(lesser_of(found, datum));
        }
    }
    found
}

fn greatest_of<'a>(literals: &'a Literals) -> Option<Datum<'a>>
    ensures { seen_if result ≡ greatest literals.now }
{
    let mut found = None;
    for literal in literals.as_slice() {
        let datum = of_literal(literal);
        if !is_null_datum(datum) {
            found = Some(greater_of(found, datum));
        }
    }
    found
}

/// The values from the least of these literals to the greatest, NULLs left out.
pub fn values_from_list<'a>(literals: &'a Literals) -> Values<'a>
    ensures { seen_interval result ≡ values_among literals.now }
{
    match least_of(literals) {
        Some(low) => match greatest_of(literals) {
            Some(high) => between(Limit::With(low), Limit::With(high)),
            None => no_values(),
        },
        None => no_values(),
    }
}
