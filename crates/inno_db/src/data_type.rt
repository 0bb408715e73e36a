//! The types of SQL values, which a statement's operands must agree in.
//! `sql_refusals` alone compares them.

/// The type of a column, its size aside.
#[derive(Clone, Copy)]
pub enum DataType {
    Number,
    Text,
}
