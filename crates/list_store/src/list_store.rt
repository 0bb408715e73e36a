//! The store itself: its parts, and what holds of them between two calls.
//! No other crate reaches a part; the calls of `IndexStore` alone change them.

use crate::slots::Slots;
use entries::ListIndex;
use index_store::Room;
use inno_types::{Listed, Schema};
use std::alloc::Global;
use std::marker::Model;

/// A store in memory.
#[derive(Drop)]
pub struct ListStore {
    pub(crate) alloc: Global,
    /// The tables, by number.
    pub(crate) schemas: Listed<Schema>,
    /// Eight for each table: the clustered index, one for each key, and empty ones.
    pub(crate) indexes: Vec<ListIndex>,
    /// Older versions.
    pub(crate) slots: Slots,
    /// What the next undo record of each session has, by its number, as far as sessions have asked.
    pub(crate) rooms: Vec<Room>,
}

impl Model for ListStore {
    ghost use Rattle.list_store.specs.Parts.{ListParts, IsSound};
    ghost use Rattle.entries.specs.contracts.list_index.ListIndex as of_index;
    ghost use Rattle.std.specs.Coded.{codes};

    ghost Value = { ListParts };

    ghost coded = { Prim.hlevel (codes, of_index.the_row.coded) };

    ghost view = { λ s. record { schemas = s.schemas; indexes = s.indexes.items; slots = s.slots; rooms = s.rooms.items } };

    ghost invariant = { λ s. IsSound s.schemas s.indexes.items s.slots s.rooms.items };
}
