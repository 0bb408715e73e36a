//! Which keys a search visits: the values that a condition allows a column (`Interval`), the index and the range that
//! it bounds (`choose`; `plan_for` where a statement changes rows), and rows under conditions and assignments.
//! Statements ask; nothing here reads an index or changes a row. MySQL 8.0 Reference Manual, "Range Optimization".
#![tactic(auto)]

mod bound;
mod choice;
mod interval;
mod interval_laws;
mod keys;
mod other_keys;
mod part;
mod planning;
mod row;

pub use choice::{Plan, choose};
pub use interval::{
    Interval, Limit, Values, has_no_value, has_one_value, intersect, turn, values_compared,
    values_from_list, values_from_to,
};
pub use interval_laws::{comparisons_are_exact, empty_holds_nothing, meet_is_exact};
pub use other_keys::other_keys_make_no_difference;
pub use part::Bounding;
pub use planning::plan_for;
pub use row::{AssignBad, assign, holds};
