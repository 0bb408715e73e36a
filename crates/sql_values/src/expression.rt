//! The value of an expression on a row. Nothing is copied: texts are seen where they stand.
//! `storing` alone asks, for the values that INSERT and UPDATE store.

ghost use Rattle.std.specs.Prelude.{◌≡◌, ◌+ℤ◌, ◌-ℤ◌, ◌*ℤ◌, neg_ℤ};
ghost use Rattle.inno_db.specs.Expressions.{in_range, both, negated, literal_given, expr_value};
ghost use Rattle.sql_values.specs.Calculated.{number_or_refusal};
ghost use Rattle.inno_db.specs.Seen.{seen};
ghost use Rattle.sql_values.specs.Calculated.{valued};

use crate::operand::{in_column, of_literal};
use inno_db::Datum;
use inno_types::{Columns, Expr, Literal, Row, SqlError};

/// A value, or a refusal.
type Side<'a> = Result<Datum<'a>, SqlError>;

/// A number that was computed, or 1690 where it left 64 bits.
fn computed<'a>(number: Option<i64>) -> Side<'a>
    ensures { valued result ≡ number_or_refusal number }
{
    match number {
        Some(number) => Ok(Datum::Int(number)),
        None => Err(SqlError::OutOfRange),
    }
}

#[tactic(auto, using(crate::proofs::Numbers::number_in_range))]
fn negate<'a>(datum: Datum<'a>) -> Side<'a>
    ensures { valued result ≡ negated (seen datum.entry) }
{
    match datum {
        Datum::Int(number) => computed(number.checked_neg()),
        Datum::Null | Datum::Text(_) => Ok(Datum::Null),
    }
}

#[tactic(auto, using(crate::proofs::Numbers::number_in_range))]
fn add<'a>(left: Side<'a>, right: Side<'a>) -> Side<'a>
    ensures { valued result ≡ both ◌+ℤ◌ (valued left.entry) (valued right.entry) }
{
    match left {
        Ok(Datum::Int(a)) => match right {
            Ok(Datum::Int(b)) => computed(a.checked_add(b)),
            Ok(Datum::Null | Datum::Text(_)) => Ok(Datum::Null),
            Err(error) => Err(error),
        },
        Ok(Datum::Null | Datum::Text(_)) => match right {
            Ok(_) => Ok(Datum::Null),
            Err(error) => Err(error),
        },
        Err(error) => Err(error),
    }
}

#[tactic(auto, using(crate::proofs::Numbers::number_in_range))]
fn subtract<'a>(left: Side<'a>, right: Side<'a>) -> Side<'a>
    ensures { valued result ≡ both ◌-ℤ◌ (valued left.entry) (valued right.entry) }
{
    match left {
        Ok(Datum::Int(a)) => match right {
            Ok(Datum::Int(b)) => computed(a.checked_sub(b)),
            Ok(Datum::Null | Datum::Text(_)) => Ok(Datum::Null),
            Err(error) => Err(error),
        },
        Ok(Datum::Null | Datum::Text(_)) => match right {
            Ok(_) => Ok(Datum::Null),
            Err(error) => Err(error),
        },
        Err(error) => Err(error),
    }
}

#[tactic(auto, using(crate::proofs::Numbers::number_in_range))]
fn multiply<'a>(left: Side<'a>, right: Side<'a>) -> Side<'a>
    ensures { valued result ≡ both ◌*ℤ◌ (valued left.entry) (valued right.entry) }
{
    match left {
        Ok(Datum::Int(a)) => match right {
            Ok(Datum::Int(b)) => computed(a.checked_mul(b)),
            Ok(Datum::Null | Datum::Text(_)) => Ok(Datum::Null),
            Err(error) => Err(error),
        },
        Ok(Datum::Null | Datum::Text(_)) => match right {
            Ok(_) => Ok(Datum::Null),
            Err(error) => Err(error),
        },
        Err(error) => Err(error),
    }
}

/// What a literal gives: one outside 64 bits is refused.
pub fn given(literal: &Literal) -> Result<Datum<'_>, SqlError>
    ensures { valued result ≡ literal_given literal.now }
{
    match literal {
        Literal::TooBig => Err(SqlError::TooBig),
        other => Ok(of_literal(other)),
    }
}

/// The value of an expression on a row, or its refusal.
pub fn compute<'a>(columns: &Columns, row: &'a Row, expr: &'a Expr) -> Side<'a>
    ensures { valued result ≡ expr_value columns.now row.now expr.now }
{
    match expr {
        Expr::Literal(literal) => given(literal),
        Expr::Column(name) => Ok(in_column(columns, row, name)),
        Expr::Negate(inner) => match compute(columns, row, inner) {
            Ok(datum) => negate(datum),
            Err(error) => Err(error),
        },
        Expr::Add(left, right) => {
            let a = compute(columns, row, left);
            let b = compute(columns, row, right);
            add(a, b)
        }
        Expr::Subtract(left, right) => {
            let a = compute(columns, row, left);
            let b = compute(columns, row, right);
            subtract(a, b)
        }
        Expr::Multiply(left, right) => {
            let a = compute(columns, row, left);
            let b = compute(columns, row, right);
            multiply(a, b)
        }
    }
}
