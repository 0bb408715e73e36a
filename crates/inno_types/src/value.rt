//! Values, and the tables that hold them.
//! Their fields are open to all: which tables may be made, and which rows fit them, is decided in crates above.

ghost use Rattle.std.specs.Prelude.{◌≡◌, IfOk};

use crate::listed::{Bytes, Columns, Keys};
use std::alloc::AllocError;

/// A value of a column.
#[derive(Clone, Drop)]
pub enum Value {
    Null,
    Int(i64),
    Text(Bytes),
}

/// The type of a column.
#[derive(Clone, Copy, PartialEq, Eq)]
pub enum Kind {
    BigInt,
    VarBinary(u8),
}

#[derive(Drop)]
pub struct Column {
    pub name: Bytes,
    pub kind: Kind,
    pub not_null: bool,
}

/// A secondary key, on the column at this place.
#[derive(Drop)]
pub struct Key {
    pub name: Bytes,
    pub column: u8,
}

/// A table's columns, with the place of the primary key among them.
#[derive(Drop)]
pub struct Schema {
    pub name: Bytes,
    pub columns: Columns,
    pub primary: u8,
    pub keys: Keys,
}

impl Column {
    /// The same column.
    pub fn copied(&self) -> Result<Column, AllocError>
        ensures { IfOk result (λ column. column ≡ self.now) }
    {
        Ok(Column {
            name: self.name.copied()?,
            kind: self.kind,
            not_null: self.not_null,
        })
    }
}

impl Key {
    /// The same key.
    pub fn copied(&self) -> Result<Key, AllocError>
        ensures { IfOk result (λ key. key ≡ self.now) }
    {
        Ok(Key {
            name: self.name.copied()?,
            column: self.column,
        })
    }
}

impl Schema {
    /// The same schema.
    pub fn copied(&self) -> Result<Schema, AllocError>
        ensures { IfOk result (λ schema. schema ≡ self.now) }
    {
        Ok(Schema {
            name: self.name.copied()?,
            columns: self.columns.copied()?,
            primary: self.primary,
            keys: self.keys.copied()?,
        })
    }
}
