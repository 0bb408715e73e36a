//! The memory for cycles, which each request that waits takes in advance: so the search for a deadlock takes none.
//! The lock table keeps it; the crate `deadlock` uses it up.

ghost use Rattle.std.specs.Prelude.{◌≡◌, ℕ, ◌≤◌, length, OnOk};
ghost use Rattle.std.specs.List.{AllByRecursion};
ghost use Rattle.lock_table.specs.Empty.{IsEmptyFor, HoldKeys, is_ready};
ghost use Rattle.lock_table.specs.Room.{HasEdges, HasRoom, HasRooms, KeepsRooms};

use inno_types::Edge;
use std::alloc::{AllocError, Global};
use store_api::MOST_BYTES_OF_KEY;

/// Memory for a list of edges. It is empty.
#[derive(Drop)]
pub struct EdgeRoom {
    pub edges: Vec<Edge>,
    /// For the keys of their locks, each with room for the longest key.
    pub keys: Vec<Vec<u8>>,
}

/// Memory for one cycle, for two copies of it, and for the search that finds it: a victim's answer takes none. All its lists are empty.
#[derive(Drop)]
pub struct CycleRoom {
    pub cycle: EdgeRoom,
    pub first_copy: EdgeRoom,
    pub second_copy: EdgeRoom,
    /// For the transactions on the way.
    pub path: Vec<u64>,
    /// For those where the search has not been.
    pub visits: Vec<u64>,
}

impl EdgeRoom {
    fn new(alloc: Global) -> EdgeRoom {
        EdgeRoom {
            edges: Vec::new(alloc),
            keys: Vec::new(alloc),
        }
    }

    /// Empties the list, and makes room for so many edges. The room that there is stays.
    fn prepare(&mut self, alloc: Global, edges: usize) -> Result<(), AllocError>
        ensures room { OnOk result (HasEdges edges self.new) }
        ensures stays { (n : ℕ) → HasEdges n self.old → HasEdges n self.new }
    {
        empty(&mut self.edges, edges)?;
        keep_ready(&mut self.keys);
        add_keys(&mut self.keys, alloc, edges)
    }
}

impl CycleRoom {
    fn new(alloc: Global) -> CycleRoom {
        CycleRoom {
            cycle: EdgeRoom::new(alloc),
            first_copy: EdgeRoom::new(alloc),
            second_copy: EdgeRoom::new(alloc),
            path: Vec::new(alloc),
            visits: Vec::new(alloc),
        }
    }

    /// Empties all lists, and makes room for a cycle of so many edges and its copies. The room that there is stays.
    fn prepare(&mut self, alloc: Global, edges: usize) -> Result<(), AllocError>
        ensures room { OnOk result (HasRoom edges self.new) }
        ensures stays { (n : ℕ) → HasRoom n self.old → HasRoom n self.new }
    {
        self.cycle.prepare(alloc, edges)?;
        self.first_copy.prepare(alloc, edges)?;
        self.second_copy.prepare(alloc, edges)?;
        empty(&mut self.path, edges)?;
        empty(&mut self.visits, edges)
    }
}

/// Empties the list, and makes room for so many items.
fn empty<T: Drop>(list: &mut Vec<T>, items: usize) -> Result<(), AllocError>
    ensures room { OnOk result (IsEmptyFor items list.new) }
    ensures stays { (n : ℕ) → IsEmptyFor n list.old → IsEmptyFor n list.new }
{
    list.clear();
    list.reserve(items)
}

/// Keeps the keys that are empty and have room for the longest key.
fn keep_ready(keys: &mut Vec<Vec<u8>>)
    ensures hold { HoldKeys keys.new.items }
    ensures stay { HoldKeys keys.old.items → keys.new.items ≡ keys.old.items }
{
    keys.retain(|key| is_ready(key));
}

fn is_ready(key: &Vec<u8>) -> bool
    ensures { result ≡ is_ready key.now }
{
    key.is_empty() && key.capacity() >= MOST_BYTES_OF_KEY
}

/// Adds keys, until there are so many.
fn add_keys(keys: &mut Vec<Vec<u8>>, alloc: Global, count: usize) -> Result<(), AllocError>
    requires { HoldKeys keys.old.items }
    ensures count { OnOk result (count ≤ length keys.new.items) }
    ensures hold { HoldKeys keys.new.items }
    ensures grows { length keys.old.items ≤ length keys.new.items }
{
    while keys.len() < count {
        keys.push(Vec::with_capacity(alloc, MOST_BYTES_OF_KEY)?)?;
    }
    Ok(())
}

/// Makes room for a cycle of so many edges in each. The room that there is stays.
fn prepare_all(rooms: &mut Vec<CycleRoom>, alloc: Global, edges: usize) -> Result<(), AllocError>
    ensures room { OnOk result (AllByRecursion (HasRoom edges) rooms.new.items) }
    ensures stays { KeepsRooms rooms.old.items rooms.new.items }
{
    for room in rooms.iter_mut() {
        room.prepare(alloc, edges)?;
    }
    Ok(())
}

/// Makes room for so many cycles of as many edges. The room that there is stays.
pub fn widen(rooms: &mut Vec<CycleRoom>, alloc: Global, count: usize) -> Result<(), AllocError>
    ensures room { OnOk result (HasRooms count rooms.new.items) }
    ensures stays { KeepsRooms rooms.old.items rooms.new.items }
{
    prepare_all(rooms, alloc, count)?;
    while rooms.len() < count {
        let mut room = CycleRoom::new(alloc);
        room.prepare(alloc, count)?;
        rooms.push(room)?;
    }
    Ok(())
}
