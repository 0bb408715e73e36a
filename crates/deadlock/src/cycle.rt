//! A cycle of waits and its copies: the history keeps one, the victim's reply another, so that ending a cycle takes no memory.
//! The search hands them out; the memory is the lock table's.

ghost use Rattle.std.specs.Prelude.{◌≡◌, length};
ghost use Rattle.lock_table.specs.Empty.{IsEmptyFor};
ghost use Rattle.lock_table.specs.Keys.{IsShort};
ghost use Rattle.lock_table.specs.Room.{HasEdges};
ghost use Rattle.deadlock.specs.Cycles.{AreShort};

use inno_types::{Edge, Edges};
use lock_table::{EdgeRoom, KeptLock};

/// A cycle that was found, and two copies of it.
#[derive(Drop)]
pub struct Cycle {
    pub edges: Edges,
    pub first_copy: Edges,
    pub second_copy: Edges,
}

/// The same edge. The key holds that of its lock.
fn copy_of(edge: &Edge, key: Vec<u8>) -> Edge
    requires short { IsShort edge.now.lock.spot.key }
    requires key { IsEmptyFor 67 key }
    ensures { result ≡ edge.now }
{
    Edge {
        waiter: edge.waiter,
        holder: edge.holder,
        lock: KeptLock::new(&edge.lock).lock_in(key),
    }
}

/// The same edges, in memory that is there.
pub fn copied_in(cycle: &Edges, room: EdgeRoom) -> Edges
    requires short { AreShort cycle.now }
    requires room { HasEdges (length cycle.now) room }
    ensures { result ≡ cycle.now }
{
    let EdgeRoom {
        mut edges,
        mut keys,
    } = room;
    for edge in cycle.as_slice() {
        // There is a key for each edge.
        let key = keys.pop().unwrap();
        edges.push_reserved(copy_of(edge, key));
    }
    Edges::from_vec(edges)
}
