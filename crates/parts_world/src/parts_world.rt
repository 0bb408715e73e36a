//! The world itself: its parts, and what holds of them between two calls.
//! No other crate reaches a part; an opening, the calls of the engine and those of `World` alone change them.

use index_store::IndexStore;
use inno_model::History;
use lock_table::LockTable;
use std::alloc::Global;
use std::marker::Model;
use txn_table::TxnTable;
use world_parts::SessionRoom;

/// A world over a store of indexes.
#[derive(Drop)]
pub struct PartsWorld<I: IndexStore> {
    pub(crate) alloc: Global,
    pub(crate) history: History,
    /// How many rows the history holds.
    pub(crate) rows: u64,
    /// The tables with their indexes, older versions, and the rooms of undo records.
    pub(crate) store: I,
    pub(crate) txns: TxnTable,
    /// By number.
    pub(crate) sessions: Vec<SessionRoom>,
    pub(crate) locks: LockTable,
    /// The victims of deadlocks that have not ended, by the number of the transaction.
    pub(crate) fallen: Vec<u64>,
}

impl<I: IndexStore> Model for PartsWorld<I> {
    ghost use Rattle.parts_world.specs.Parts.{Parts, IsSound, queue_of};
    ghost use Rattle.inno_model.specs.contracts.event.Event as of_event;
    ghost use Rattle.lock_table.specs.contracts.table.LockTable as of_locks;
    ghost use Rattle.std.specs.Coded.{codes};

    ghost Value = { Parts I };

    ghost coded = { Prim.hlevel (codes, I.code, of_event.the_row.coded, of_locks.the_row.coded) };

    ghost view = { λ w. record { names = w.history.names; past = w.history.past; rows = w.rows; store = w.store; txns = w.txns; sessions = w.sessions.items; locks = w.locks; fallen = w.fallen.items } };

    ghost invariant = { λ w. IsSound w.history.room w.rows (I.store w.store).rooms w.txns.begun (queue_of w.locks.waiting w.fallen) w.sessions.items };
}
