//! Names, literals and lists of them as text, each after what was written before.
//! No test stands here; `statement` and `condition` spell by these.

use inno_types::{Bytes, Literal, Literals, Names};
use std::alloc::{AllocError, Global};

pub fn push_text(out: &mut Vec<u8>, text: &str) -> Result<(), AllocError> {
    out.extend_from_slice(text.as_bytes())
}

pub fn push_name(out: &mut Vec<u8>, name: &Bytes) -> Result<(), AllocError> {
    out.extend_from_slice(name.as_slice())
}

/// The text of a choice, or nothing.
pub fn push_if(out: &mut Vec<u8>, chosen: bool, text: &str) -> Result<(), AllocError> {
    if chosen {
        return push_text(out, text);
    }
    Ok(())
}

/// What stands between two entries: nothing before the first.
pub fn push_comma(out: &mut Vec<u8>, place: usize) -> Result<(), AllocError> {
    push_if(out, place > 0, ", ")
}

pub fn push_names(out: &mut Vec<u8>, names: &Names) -> Result<(), AllocError> {
    for (place, name) in names.as_slice().iter().enumerate() {
        push_comma(out, place)?;
        push_name(out, name)?;
    }
    Ok(())
}

pub fn push_literal(alloc: Global, out: &mut Vec<u8>, literal: &Literal) -> Result<(), AllocError> {
    match literal {
        Literal::Null => push_text(out, "NULL"),
        Literal::TooBig => push_text(out, "too-big"),
        Literal::Int(n) => {
            let digits = n.to_string(alloc)?;
            push_text(out, digits.as_str())
        }
        Literal::Text(bytes) => {
            push_text(out, "'")?;
            push_name(out, bytes)?;
            push_text(out, "'")
        }
    }
}

/// Literals between brackets.
pub fn push_tuple(alloc: Global, out: &mut Vec<u8>, literals: &Literals) -> Result<(), AllocError> {
    push_text(out, "(")?;
    for (place, literal) in literals.as_slice().iter().enumerate() {
        push_comma(out, place)?;
        push_literal(alloc, out, literal)?;
    }
    push_text(out, ")")
}
