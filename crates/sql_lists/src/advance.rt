//! How far a statement's step came, and the edge by which a statement waits.
//! Every step of a statement answers an `Advance`; `SqlLists` alone makes the edge.

ghost use Rattle.std.specs.Prelude.{◌≡◌, ◌∷◌, [], IfOk};
ghost use Rattle.sql_lists.specs.Steps.{plain_edge};

use inno_types::{Edge, Edges, Level, Lock, LockKind, Mode, Reason, Reply, Spot};
use std::alloc::Global;
use store_api::NoMemory;

/// How far a step came.
#[derive(Drop)]
pub enum Advance {
    Went,
    /// Another session may write, and this one waits for it: by which edge.
    Waiting { by: u32, blockers: Edges },
    NoMemory,
    Done(Reply),
}

/// The edge of a wait for the one plain lock. No rule gave it, so its reason names none.
pub fn plain_edge(alloc: Global, waiter: u64, holder: u64) -> Result<Edges, NoMemory>
    ensures { IfOk result (λ edges. edges ≡ plain_edge waiter holder ∷ []) }
{
    let mut edges = Edges::new(alloc);
    let spot = Spot {
        index: 0,
        key: None,
    };
    let reason = Reason {
        rule: 0,
        item: 0,
        level: Level::RepeatableRead,
    };
    let lock = Lock {
        txn: holder,
        spot,
        kind: LockKind::Rec,
        mode: Mode::X,
        reason,
    };
    edges.push(Edge {
        waiter,
        holder,
        lock,
    })?;
    Ok(edges)
}
