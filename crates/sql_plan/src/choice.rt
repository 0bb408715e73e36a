//! Which index a search walks, and in which range.
//! `read_statement` and `planning` ask before any row is taken; no index is looked into here.

ghost use Rattle.std.specs.Prelude.{◌≡◌, ◌<◌, ◌≤◌, ◌==◌, ℕ, List, Option, Some, map, length, slice_get, OnOk, IfOk, IfSome, if◌then◌else◌, true};
ghost use Rattle.std.specs.List.{list_any};
ghost use Rattle.std.specs.Option.{is_some};
ghost use Rattle.inno_db.specs.declared.limits.TheConstants.{MOST_KEYS};
ghost use Rattle.sql_plan.specs.Intervals.{whole, meet};
ghost use Rattle.sql_plan.specs.Parts.{ranges_of};
ghost use Rattle.sql_plan.specs.Bounds.{HaveSize};
ghost use Rattle.sql_plan.specs.Plans.{places_of, key_on, index_on, first_keyed, chosen_column, meet_on, whole_index, plan_in, plan_on, plan_by, plan_of, searched, searched_in};
ghost use Rattle.sql_plan.specs.Visits.{are_indexable};
ghost use Rattle.sql_plan.specs.Covers.{CoversMatches, PassesNulls};
ghost use Rattle.inno_db.specs.Typing.{filter_fits};
ghost use Rattle.sql_plan.specs.SeenIntervals.{seen_interval};
ghost use Rattle.sql_plan.specs.SeenParts.{seen_part};

use crate::bound::range_in;
use crate::part::{Part, parts_of};
use crate::{Interval, Limit, Values, has_one_value, intersect};
use inno_types::{Bound, Column, Filter, Keys, Range, Schema};
use std::alloc::Global;
use store_api::NoMemory;

/// Which keys a search visits: those of a range of one index. `which` is 0 for the clustered index, and 1 to 4 for
/// the secondary keys in order. MySQL 8.0 Reference Manual, "Range Optimization".
#[derive(Drop)]
pub struct Plan {
    pub which: u8,
    pub range: Range,
    /// Whether the range is that of one value of the primary key.
    pub unique: bool,
}

impl Plan {
    ghost use Rattle.sql_plan.specs.Plans.{whole_index};

    /// All of the clustered index.
    pub fn whole() -> Plan
        ensures { result ≡ whole_index }
    {
        Plan {
            which: 0,
            range: Range {
                empty: false,
                low: Bound::Open,
                high: Bound::Open,
            },
            unique: false,
        }
    }
}

/// The first key on the column at this place.
fn place_of_key(keys: &Keys, place: usize) -> Option<usize>
    ensures found { result ≡ key_on keys.now place }
    ensures within { IfSome result (λ number. number < length keys.now) }
{
    keys.as_slice()
        .iter()
        .position(|key| usize::from(key.column) == place)
}

/// The index that the column at this place leads.
fn index_of(schema: &Schema, place: usize) -> Option<u8>
    requires { length schema.now.keys ≤ MOST_KEYS }
    ensures { result ≡ index_on schema.now place }
{
    if place == usize::from(schema.primary) {
        return Some(0);
    }
    match place_of_key(&schema.keys, place) {
        Some(number) => Some(number as u8 + 1),
        None => None,
    }
}

fn bounds_column(parts: &[Part<'_>], place: usize) -> bool
    ensures { result ≡ list_any (λ bounded. bounded == place) (places_of (map seen_part parts.now)) }
{
    for part in parts {
        if part.place == place {
            return true;
        }
    }
    false
}

fn first_with_key(keys: &Keys, parts: &[Part<'_>]) -> Option<usize>
    ensures { result ≡ first_keyed keys.now (places_of (map seen_part parts.now)) }
{
    for part in parts {
        if place_of_key(keys, part.place).is_some() {
            return Some(part.place);
        }
    }
    None
}

/// Of the columns that are bounded the primary key's, or else the first one that has a key.
fn column_of(schema: &Schema, parts: &[Part<'_>]) -> Option<usize>
    ensures { result ≡ chosen_column schema.now (places_of (map seen_part parts.now)) }
{
    let primary = usize::from(schema.primary);
    if bounds_column(parts, primary) {
        return Some(primary);
    }
    first_with_key(&schema.keys, parts)
}

/// The values that a part leaves of these, if it bounds the column at this place.
fn narrow<'a>(values: Values<'a>, part: &Part<'a>, place: usize) -> Values<'a>
    ensures { seen_interval result ≡ (if part.now.place == place
        then meet (seen_interval values.entry) (seen_part part.now).values
        else seen_interval values.entry) }
{
    if part.place == place {
        intersect(values, part.values)
    } else {
        values
    }
}

/// What all parts together allow the column at this place.
fn values_at<'a>(parts: &[Part<'a>], place: usize) -> Values<'a>
    ensures { seen_interval result ≡ meet_on place whole (map seen_part parts.now) }
{
    let mut values = Interval {
        none: false,
        low: Limit::Open,
        high: Limit::Open,
    };
    for part in parts {
        values = narrow(values, part, place);
    }
    values
}

/// The search of an index, which this column leads, for these values.
fn search_for(
    alloc: Global,
    which: u8,
    column: &Column,
    values: Values<'_>,
) -> Result<Plan, NoMemory>
    ensures ok { IfOk result (λ plan. plan ≡ plan_in which column.now (seen_interval values.entry)) }
    ensures range { OnOk result (HaveSize (seen_interval values.entry)) }
{
    Ok(Plan {
        which,
        range: range_in(alloc, which, column.kind, values)?,
        unique: which == 0 && has_one_value(values),
    })
}

/// The search by the column at this place.
fn search_by(
    alloc: Global,
    schema: &Schema,
    parts: &[Part<'_>],
    place: usize,
) -> Result<Plan, NoMemory>
    requires { length schema.now.keys ≤ MOST_KEYS }
    ensures ok { IfOk result (λ plan. plan ≡ plan_on schema.now (map seen_part parts.now) place) }
    ensures range { OnOk result (HaveSize (searched schema.now (map seen_part parts.now) place)) }
{
    match (
        schema.columns.as_slice().get(place),
        index_of(schema, place),
    ) {
        (Some(column), Some(which)) => search_for(alloc, which, column, values_at(parts, place)),
        _ => Ok(Plan::whole()),
    }
}

/// The search that these parts of a condition bound.
fn choose_among(alloc: Global, schema: &Schema, parts: &[Part<'_>]) -> Result<Plan, NoMemory>
    requires { length schema.now.keys ≤ MOST_KEYS }
    ensures ok { IfOk result (λ plan. plan ≡ plan_by schema.now (map seen_part parts.now)
        (chosen_column schema.now (places_of (map seen_part parts.now)))) }
    ensures range { OnOk result (HaveSize (searched_in schema.now (map seen_part parts.now)
        (chosen_column schema.now (places_of (map seen_part parts.now))))) }
{
    match column_of(schema, parts) {
        Some(place) => search_by(alloc, schema, parts, place),
        None => Ok(Plan::whole()),
    }
}

/// The search for the rows that meet a condition: by the primary key where the condition's topmost AND compares it
/// with literals, else by the first such column that has a key, else of all of the clustered index.
pub fn choose(alloc: Global, schema: &Schema, filter: &Filter) -> Result<Plan, NoMemory>
    requires { length schema.now.keys ≤ MOST_KEYS }
    ensures plan { IfOk result (λ plan. plan ≡ plan_of schema.now filter.now) }
    // Where the statement is not refused by its types, the key of each row that meets the condition is visited.
    ensures covers { IfOk result (λ plan. are_indexable schema.now ≡ true
        → filter_fits schema.now.columns filter.now ≡ true → CoversMatches schema.now filter.now plan) }
    ensures nulls { IfOk result (λ plan. PassesNulls schema.now plan) }
{
    let parts = parts_of(alloc, &schema.columns, filter)?;
    choose_among(alloc, schema, &parts)
}
