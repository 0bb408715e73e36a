//! The grammar of SQL: what tokens are, which bytes spell them, and which tokens spell a statement.
//! The definitions stand in specs/, apart from any parser; who parses or prints statements cites them.
#![tactic(auto)]

mod token;

pub use token::{Token, Word};
