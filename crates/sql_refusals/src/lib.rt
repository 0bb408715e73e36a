//! Why a statement is refused by its text and the schemas.
//! An engine asks here before it takes any row or begins a transaction.
#![tactic(auto)]

mod refusal;
mod typing;

pub use refusal::{refuse, schema_of_table};
