//! The plain interpreter: what a statement makes of a database, by reading every row of its table.
//! It is slow and knows no index. Tests compare engines with it; an engine gives it the rows that it has gathered.
#![tactic(auto)]

mod changes;
mod interpreter;
mod laws;
mod selection;

pub use interpreter::{plain, plain_on_rows};
pub use laws::more_tables_refuse_no_more;
