//! The values that a statement names: its literals, and columns of a row.
//! Conditions, expressions, plans and SELECT ask; values are seen where they stand, and none is copied.

ghost use Rattle.std.specs.Prelude.{◌≡◌};
ghost use Rattle.inno_db.specs.Conditions.{literal_value, operand_value};
ghost use Rattle.inno_db.specs.Names.{column_value};
ghost use Rattle.inno_db.specs.Seen.{seen};

use crate::names::place_of_column;
use inno_db::{Datum, at_place};
use inno_types::{Bytes, Columns, Literal, Operand, Row};

/// A literal outside 64 bits has no value, and is seen as NULL.
pub fn of_literal(literal: &Literal) -> Datum<'_>
    ensures { seen result ≡ literal_value literal.now }
{
    match literal {
        Literal::Null | Literal::TooBig => Datum::Null,
        Literal::Int(number) => Datum::Int(*number),
        Literal::Text(text) => Datum::Text(text),
    }
}

/// The value in the column of this name, or NULL.
pub fn in_column<'a>(columns: &Columns, row: &'a Row, name: &Bytes) -> Datum<'a>
    ensures { seen result ≡ column_value columns.now row.now name.now }
{
    match place_of_column(columns, name) {
        Some(place) => at_place(row, place),
        None => Datum::Null,
    }
}

pub fn of_operand<'a>(columns: &Columns, row: &'a Row, operand: &'a Operand) -> Datum<'a>
    ensures { seen result ≡ operand_value columns.now row.now operand.now }
{
    match operand {
        Operand::Literal(literal) => of_literal(literal),
        Operand::Column(name) => in_column(columns, row, name),
    }
}
