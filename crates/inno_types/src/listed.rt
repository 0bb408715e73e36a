//! A list over a vector: the one type behind bytes, rows, names and all other plain lists.
//! Contracts see such a list as the list of its items.

ghost use Rattle.std.specs.Prelude.{◌≡◌, [], ◌∷◌, ◌++◌, ◌↔◌, length, IsTrue, OnOk, OnErr, IfOk};

use crate::lock::{Edge, Lock};
use crate::value::{Column, Key, Value};
use std::alloc::{AllocError, Global};
use std::marker::Model;

/// A list that keeps its allocator. Contracts see the list of its items.
#[derive(Clone, Drop)]
pub struct Listed<T> {
    items: Vec<T>,
}

impl<T> Model for Listed<T> {
    ghost use Rattle.std.specs.Prelude.{List};

    ghost Value = { List T };

    ghost view = { λ l. l.items.items };
}

/// A name, a text, or an encoded key or row.
pub type Bytes = Listed<u8>;

/// The values of a row, in the order of its table's columns.
pub type Row = Listed<Value>;

pub type Rows = Listed<Row>;

pub type Columns = Listed<Column>;

pub type Keys = Listed<Key>;

pub type Edges = Listed<Edge>;

pub type Locks = Listed<Lock>;

/// Ids of transactions, numbers of calls, or other numbers.
pub type Ids = Listed<u64>;

impl<T> Listed<T> {
    pub fn new(alloc: Global) -> Self
        ensures { result ≡ [] }
    {
        Listed {
            items: Vec::new(alloc),
        }
    }

    pub fn from_vec(items: Vec<T>) -> Self
        ensures { result ≡ items.items }
    {
        Listed { items }
    }

    pub fn into_vec(self) -> Vec<T>
        ensures { result.items ≡ self }
    {
        let Listed { items } = self;
        items
    }

    pub fn as_slice(&self) -> &[T]
        ensures { result.now ≡ self.now }
    {
        self.items.as_slice()
    }

    pub fn len(&self) -> usize
        ensures { result ≡ length self.now }
    {
        self.items.len()
    }

    pub fn is_empty(&self) -> bool
        ensures { IsTrue result ↔ (self.now ≡ []) }
    {
        self.items.is_empty()
    }
}

impl<T: Drop> Listed<T> {
    /// Adds an item at the end. An `Err` drops the item, and changes nothing.
    pub fn push(&mut self, item: T) -> Result<(), AllocError>
        ensures ok { OnOk result (self.new ≡ self.old ++ item ∷ []) }
        ensures err { OnErr result (self.new ≡ self.old) }
    {
        self.items.push(item)?;
        Ok(())
    }
}

impl Listed<u8> {
    /// The same bytes.
    pub fn copied(&self) -> Result<Self, AllocError>
        ensures { IfOk result (λ bytes. bytes ≡ self.now) }
    {
        self.clone()
    }
}

impl Listed<Value> {
    /// The same values.
    pub fn copied(&self) -> Result<Self, AllocError>
        ensures { IfOk result (λ row. row ≡ self.now) }
    {
        self.clone()
    }
}

impl Listed<Row> {
    /// The same rows. (A derived `clone` of a list of lists is not known to be equal.)
    pub fn copied(&self) -> Result<Self, AllocError>
        ensures { IfOk result (λ rows. rows ≡ self.now) }
    {
        let mut rows = Vec::new(*self.items.allocator());
        for row in self.items.iter() {
            rows.push(row.copied()?)?;
        }
        Ok(Listed { items: rows })
    }
}

impl Listed<Edge> {
    /// The same edges.
    pub fn copied(&self) -> Result<Self, AllocError>
        ensures { IfOk result (λ edges. edges ≡ self.now) }
    {
        let mut edges = Vec::new(*self.items.allocator());
        for edge in self.items.iter() {
            edges.push(edge.copied()?)?;
        }
        Ok(Listed { items: edges })
    }
}

impl Listed<Column> {
    /// The same columns.
    pub fn copied(&self) -> Result<Self, AllocError>
        ensures { IfOk result (λ columns. columns ≡ self.now) }
    {
        let mut columns = Vec::new(*self.items.allocator());
        for column in self.items.iter() {
            columns.push(column.copied()?)?;
        }
        Ok(Listed { items: columns })
    }
}

impl Listed<Key> {
    /// The same keys.
    pub fn copied(&self) -> Result<Self, AllocError>
        ensures { IfOk result (λ keys. keys ≡ self.now) }
    {
        let mut keys = Vec::new(*self.items.allocator());
        for key in self.items.iter() {
            keys.push(key.copied()?)?;
        }
        Ok(Listed { items: keys })
    }
}
