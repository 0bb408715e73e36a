//! The plain types of the storage engine: values, rows, schemas, locks, items, replies and the trees of SQL.
//! Every crate stands on this one; it has no behaviour but the numbers of errors.
#![tactic(auto)]

mod boxed;
mod listed;
mod lock;
mod order;
mod reply;
mod stmt;
mod value;

pub use boxed::Boxed;
pub use listed::{Bytes, Columns, Edges, Ids, Keys, Listed, Locks, Row, Rows};
pub use lock::{Edge, Level, Lock, LockKind, Mode, Reason, Spot};
pub use reply::{Cause, Item, Reply, SqlError};
pub use stmt::{
    Bound, Comparison, DeclaredKind, Definition, Definitions, Expr, Filter, LevelScope, Literal,
    Literals, Names, Operand, Range, Selected, Set, Sets, Stmt, Tuples,
};
pub use value::{Column, Key, Kind, Schema, Value};
