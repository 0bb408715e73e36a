//! Rows under conditions and assignments, by the calls of `sql_values`.
//! No statement asks here yet: the plain interpreter, which they ask instead, calls `sql_values` itself.

ghost use Rattle.std.specs.Prelude.{◌≡◌};
ghost use Rattle.inno_db.specs.Conditions.{truth_of};
ghost use Rattle.inno_db.specs.Storing.{all_assigned};
ghost use Rattle.sql_plan.specs.Rows.{known, IsAnswer};

use inno_db::Truth;
use inno_types::{Filter, Row, Schema, Sets, SqlError};
use sql_values::{assign_all, evaluate};
use std::alloc::AllocError;

/// Why a row is not assigned to: the statement is refused, or memory ran out.
#[derive(Drop)]
pub enum AssignBad {
    Fail(SqlError),
    NoMemory,
}

impl From<AllocError> for AssignBad {
    ghost use Rattle.sql_plan.specs.declared.row.AssignBad.TheVariants.{NoMemory};

    ghost from_gives = { λ _ bad. bad ≡ NoMemory };

    fn from(_: AllocError) -> AssignBad {
        AssignBad::NoMemory
    }
}

/// Whether a row meets a condition; None where that is unknown.
pub fn holds(schema: &Schema, filter: &Filter, row: &Row) -> Option<bool>
    ensures { result ≡ known (truth_of schema.now.columns row.now filter.now) }
{
    match evaluate(&schema.columns, row, filter) {
        Truth::True => Some(true),
        Truth::False => Some(false),
        Truth::Unknown => None,
    }
}

/// The row after the assignments of an UPDATE, from left to right, each of which sees what the earlier ones made.
pub fn assign(schema: &Schema, row: &Row, sets: &Sets) -> Result<Row, AssignBad>
    ensures { IsAnswer result (all_assigned schema.now.columns row.now sets.now) }
{
    match assign_all(&schema.columns, row.copied()?, sets)? {
        Ok(after) => Ok(after),
        Err(error) => Err(AssignBad::Fail(error)),
    }
}
