//! Whether a search is one for a single key, and by which rule it locks what it comes to. The range's bytes say it, and
//! not its plan.
//! Only the steps in `walk` ask.

ghost use Rattle.std.specs.Prelude.{◌≡◌};
ghost use Rattle.row_locking.specs.Rules.{TellsOneKey, rule_within as rule_within_lem, rule_past as rule_past_lem};

use crate::bounds::primary_len;
use inno_types::{Bound, Range, Schema};
use lock_rules::Rule;

/// Whether both bounds are one key of the clustered index, as long as its keys at least. So one record at most lies in
/// the range.
pub fn is_for_one_key(schema: &Schema, which: u8, range: &Range) -> bool
    ensures { TellsOneKey schema.now which range.now result }
{
    match (&range.low, &range.high) {
        (Bound::With(low), Bound::With(high)) => {
            which == 0 && low.as_slice() == high.as_slice() && primary_len(schema) <= low.len()
        }
        _ => false,
    }
}

/// The rule for a record in the range.
/// MySQL 8.0 Reference Manual, "Locks Set by Different SQL Statements in InnoDB".
pub fn rule_within(one: bool, marked: bool) -> Rule
    ensures { result ≡ rule_within_lem one marked }
{
    if !one {
        return Rule::RangeRecord;
    }
    if marked {
        Rule::UniqueMarked
    } else {
        Rule::UniqueFound
    }
}

/// The rule for the first record past the range, or the supremum.
pub fn rule_past(one: bool) -> Rule
    ensures { result ≡ rule_past_lem one }
{
    if one {
        Rule::UniqueAbsent
    } else {
        Rule::PastRange
    }
}
