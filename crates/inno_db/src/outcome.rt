//! What a statement makes of a database: its reply and its changes. The definition stands in specs/Outcome.antt.
//! `plain_sql` alone makes outcomes; nothing here runs a statement.

use crate::change::Change;
use inno_types::{Listed, Reply, SqlError};

/// Changes, the first of them first.
pub type Changes = Listed<Change>;

/// What a statement answers, and what it changes.
#[derive(Drop)]
pub struct Outcome {
    pub reply: Reply,
    pub changes: Changes,
}

/// The changes that a statement made row by row, up to the refusal that ended it, if one did.
#[derive(Drop)]
pub struct Written {
    pub changes: Changes,
    pub refusal: Option<SqlError>,
}
