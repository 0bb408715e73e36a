//! What planners may rest on about intervals.
//! Each law is the contract of a function that does nothing, and that nothing calls.

ghost use Rattle.std.specs.Prelude.{◌≡◌, ◌&&◌, true, false, Some};
ghost use Rattle.inno_types.specs.declared.value.Value.{Value};
ghost use Rattle.inno_types.specs.declared.stmt.Comparison.{Comparison};
ghost use Rattle.inno_db.specs.Conditions.{compared, is_true};
ghost use Rattle.sql_plan.specs.declared.interval.Interval.{Interval};
ghost use Rattle.sql_plan.specs.Intervals.{compared_with, meet, contains, is_empty};

/// The interval of a comparison holds exactly the values of which the comparison is true.
pub fn comparisons_are_exact()
    ensures { (comparison : Comparison) (v w : Value) (values : Interval Value) → compared_with comparison w ≡ Some values
        → contains values v ≡ is_true (compared comparison v w) }
{}

/// The meet of two intervals holds exactly the values that both hold.
pub fn meet_is_exact()
    ensures { (a b : Interval Value) (v : Value) → contains (meet a b) v ≡ (contains a v && contains b v) }
{}

/// An interval that is told to be empty holds no value.
pub fn empty_holds_nothing()
    ensures { (values : Interval Value) (v : Value) → is_empty values ≡ true → contains values v ≡ false }
{}
