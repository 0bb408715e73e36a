//! The value of a condition: true, false or unknown. Whoever evaluates one on a row combines these.
//! `sql_values` does so; no row is looked at here.

ghost use Rattle.std.specs.Prelude.{◌≡◌};

/// The value of a condition.
#[derive(Clone, Copy)]
pub enum Truth {
    True,
    False,
    Unknown,
}

impl Truth {
    ghost use Rattle.inno_db.specs.Conditions.{not_of, and_of, or_of, not_if, truth_from, is_true};

    pub fn of(holds: bool) -> Truth
        ensures { result ≡ truth_from holds }
    {
        if holds { Truth::True } else { Truth::False }
    }

    pub fn negated(self) -> Truth
        ensures { result ≡ not_of self }
    {
        match self {
            Truth::True => Truth::False,
            Truth::False => Truth::True,
            Truth::Unknown => Truth::Unknown,
        }
    }

    pub fn negated_if(self, negated: bool) -> Truth
        ensures { result ≡ not_if negated self }
    {
        if negated { self.negated() } else { self }
    }

    pub fn and(self, other: Truth) -> Truth
        ensures { result ≡ and_of self other }
    {
        match (self, other) {
            (Truth::False, _) | (Truth::Unknown, Truth::False) => Truth::False,
            (Truth::True, _) => other,
            (Truth::Unknown, _) => Truth::Unknown,
        }
    }

    pub fn or(self, other: Truth) -> Truth
        ensures { result ≡ or_of self other }
    {
        match (self, other) {
            (Truth::True, _) | (Truth::Unknown, Truth::True) => Truth::True,
            (Truth::False, _) => other,
            (Truth::Unknown, _) => Truth::Unknown,
        }
    }

    pub fn is_true(self) -> bool
        ensures { result ≡ is_true self }
    {
        match self {
            Truth::True => true,
            Truth::False | Truth::Unknown => false,
        }
    }
}
