//! Conditions and right sides of assignments as text, with brackets round every operator.
//! No test stands here; `statement` alone spells by these.

use crate::rendering::{push_if, push_literal, push_name, push_text, push_tuple};
use inno_types::{Comparison, Expr, Filter, Literal, Operand};
use std::alloc::{AllocError, Global};

fn sign(comparison: Comparison) -> &'static str {
    match comparison {
        Comparison::Equal => " = ",
        Comparison::NotEqual => " <> ",
        Comparison::Less => " < ",
        Comparison::LessOrEqual => " <= ",
        Comparison::Greater => " > ",
        Comparison::GreaterOrEqual => " >= ",
    }
}

fn push_operand(alloc: Global, out: &mut Vec<u8>, operand: &Operand) -> Result<(), AllocError> {
    match operand {
        Operand::Literal(literal) => push_literal(alloc, out, literal),
        Operand::Column(name) => push_name(out, name),
    }
}

fn push_ends(
    alloc: Global,
    out: &mut Vec<u8>,
    low: &Literal,
    high: &Literal,
) -> Result<(), AllocError> {
    push_text(out, " between ")?;
    push_literal(alloc, out, low)?;
    push_text(out, " and ")?;
    push_literal(alloc, out, high)
}

/// A condition that has no condition in it, without the brackets round it.
fn push_test(alloc: Global, out: &mut Vec<u8>, filter: &Filter) -> Result<(), AllocError> {
    match filter {
        Filter::Compare {
            left,
            comparison,
            right,
        } => {
            push_operand(alloc, out, left)?;
            push_text(out, sign(*comparison))?;
            push_operand(alloc, out, right)
        }
        Filter::Between {
            column,
            negated,
            low,
            high,
        } => {
            push_name(out, column)?;
            push_if(out, *negated, " not")?;
            push_ends(alloc, out, low, high)
        }
        Filter::In {
            column,
            negated,
            literals,
        } => {
            push_name(out, column)?;
            push_text(out, if *negated { " not in " } else { " in " })?;
            push_tuple(alloc, out, literals)
        }
        Filter::IsNull { column, negated } => {
            push_name(out, column)?;
            push_text(out, if *negated { " is not null" } else { " is null" })
        }
        _ => Ok(()),
    }
}

/// What joins the two sides of a condition.
fn connective(filter: &Filter) -> &'static str {
    match filter {
        Filter::And(_, _) => " and ",
        Filter::Or(_, _) => " or ",
        _ => " ? ",
    }
}

pub fn push_filter(alloc: Global, out: &mut Vec<u8>, filter: &Filter) -> Result<(), AllocError> {
    push_text(out, "(")?;
    match filter {
        Filter::Not(inner) => {
            push_text(out, "not ")?;
            push_filter(alloc, out, inner)?;
        }
        Filter::And(left, right) | Filter::Or(left, right) => {
            push_filter(alloc, out, left)?;
            push_text(out, connective(filter))?;
            push_filter(alloc, out, right)?;
        }
        _ => push_test(alloc, out, filter)?,
    }
    push_text(out, ")")
}

fn operator(value: &Expr) -> &'static str {
    match value {
        Expr::Add(_, _) => " + ",
        Expr::Subtract(_, _) => " - ",
        Expr::Multiply(_, _) => " * ",
        _ => " ? ",
    }
}

pub fn push_expression(alloc: Global, out: &mut Vec<u8>, value: &Expr) -> Result<(), AllocError> {
    match value {
        Expr::Literal(literal) => push_literal(alloc, out, literal),
        Expr::Column(name) => push_name(out, name),
        Expr::Negate(inner) => {
            push_text(out, "neg(")?;
            push_expression(alloc, out, inner)?;
            push_text(out, ")")
        }
        Expr::Add(left, right) | Expr::Subtract(left, right) | Expr::Multiply(left, right) => {
            push_text(out, "(")?;
            push_expression(alloc, out, left)?;
            push_text(out, operator(value))?;
            push_expression(alloc, out, right)?;
            push_text(out, ")")
        }
    }
}
