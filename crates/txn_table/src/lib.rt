//! The open transactions in order of begin, and the ids that they are given when they first write.
//! The engine begins and ends them here; read views are made of the active ids.
#![tactic(auto)]

ghost use Rattle.std.specs.Prelude.{◌≡◌, ℕ, ◌+◌, ◌-◌, ◌^◌, ◌<◌, [], ◌∷◌, ◌++◌, nat_eq, OnOk, OnErr, IfOk, Some, is_some};
ghost use Rattle.std.specs.Map.{lookup};
ghost use Rattle.txn_table.specs.Txns.{ids_of, with_id, id_at, is_there, without};

use indexmap::IndexMap;
use inno_types::{Ids, Level};
use std::alloc::Global;
use std::marker::Model;
use store_api::NoMemory;

/// What is kept of an open transaction. Its id is 0 until it first writes.
#[derive(Clone, Copy)]
pub struct OpenTxn {
    pub session: u32,
    pub level: Level,
    pub id: u64,
}

/// The open transactions by number. Contracts see them in order of begin, how many were begun, and the next id.
#[derive(Drop)]
pub struct TxnTable {
    open: IndexMap<u64, OpenTxn>,
    begun: u64,
    next: u64,
}

impl Model for TxnTable {
    ghost use Rattle.txn_table.specs.Txns.{Txns, AreBegun, txns_code};

    ghost Value = { Txns };

    ghost coded = { txns_code };

    ghost view = { λ t. record { open_txns = t.open.entries; begun = t.begun; next = t.next } };

    ghost invariant = { λ t. AreBegun t.begun t.open.entries };
}

impl TxnTable {
    /// No transaction is open. The first id is `first`.
    pub fn new(alloc: Global, first: u64) -> Result<Self, NoMemory>
        ensures { IfOk result (λ t. t ≡ record { open_txns = []; begun = 0; next = first }) }
    {
        Ok(TxnTable {
            open: IndexMap::new(alloc),
            begun: 0,
            next: first,
        })
    }

    /// Begins a transaction of the session, and gives its number.
    pub fn begin(&mut self, s: u32, level: Level) -> Result<u64, NoMemory>
        requires { self.old.begun < 2 ^ 64 - 1 }
        ensures number { IfOk result (λ n. n ≡ self.old.begun + 1) }
        ensures ok { OnOk result (self.new ≡ record { open_txns = self.old.open_txns ++ (self.old.begun + 1, record { session = s; level = level; id = 0 }) ∷ []; begun = self.old.begun + 1; next = self.old.next }) }
        ensures err { OnErr result (self.new ≡ self.old) }
    {
        let number = self.begun + 1;
        let txn = OpenTxn {
            session: s,
            level,
            id: 0,
        };
        self.open.insert(number, txn)?;
        self.begun = number;
        Ok(number)
    }

    /// The id that is given next.
    pub fn next_id(&self) -> u64
        ensures { result ≡ self.now.next }
    {
        self.next
    }

    /// Gives the transaction its id.
    pub fn give_id(&mut self, txn: u64) -> u64
        requires there { is_there txn self.old.open_txns }
        requires none { id_at txn self.old.open_txns ≡ 0 }
        requires fits { self.old.next < 2 ^ 64 - 1 }
        ensures id { result ≡ self.old.next }
        ensures given { self.new ≡ record self.old { open_txns = with_id txn self.old.next self.old.open_txns; next = self.old.next + 1 } }
    {
        let id = self.next;
        let given = OpenTxn {
            id,
            ..self.kept_of(txn)
        };
        // The number is there, so nothing is added and no memory is wanted.
        let _ = self.open.insert(txn, given);
        self.next = id + 1;
        id
    }

    /// What is kept of an open transaction.
    fn kept_of(&self, txn: u64) -> OpenTxn
        requires { is_there txn self.now.open_txns }
        ensures { lookup (nat_eq txn) self.now.open_txns ≡ Some result }
    {
        match self.open.get(&txn) {
            Some(kept) => *kept,
            None => unreachable!(),
        }
    }

    /// Puts the ids that were given and not ended into `out`, in order of begin.
    pub fn active(&self, alloc: Global, out: &mut Ids) -> Result<(), NoMemory>
        ensures ok { OnOk result (out.new ≡ ids_of self.now.open_txns) }
        ensures err { OnErr result (out.new ≡ out.old) }
    {
        let mut ids = Vec::new(alloc);
        for txn in self.open.values() {
            if txn.id != 0 {
                ids.push(txn.id)?;
            }
        }
        *out = Ids::from_vec(ids);
        Ok(())
    }

    /// The transaction is no longer open.
    pub fn end(&mut self, txn: u64)
        ensures { self.new ≡ record self.old { open_txns = without txn self.old.open_txns } }
    {
        let _ = self.open.shift_remove(&txn);
    }
}
