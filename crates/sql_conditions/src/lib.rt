//! Names, literals and lists of them, conditions behind a WHERE, and the right sides of assignments, at the front of a
//! statement's tokens. Brackets may be nested to any depth: what waits for an operand stands on a stack in memory.
#![tactic(auto)]

mod atoms;
mod boxes;
mod conditions;
mod expressions;
mod lists;
mod literals;
mod refusal;
mod stack;

pub use conditions::condition;
pub use expressions::expression;
pub use lists::{after_close, after_comma, after_open, end, names, tuple, tuples};
pub use literals::{literal, name, number};
pub use refusal::{Refusal, unexpected};
