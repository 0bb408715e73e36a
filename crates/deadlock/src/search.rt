//! The search for a cycle of waits: depth first from one transaction on, until it comes back to it.
//! It reads the lock table, and works in memory that the table took before.

ghost use Rattle.std.specs.Prelude.{◌≡◌, ◌<◌, ◌≤◌, ◌+◌, ◌-◌, ◌==◌, ◌&&◌, if◌then◌else◌, [], length, map, find, option_map, option_copied, is_some, IfSome, IfNone, Some, vec_len, vec_capacity};
ghost use Rattle.std.specs.Bool.{OnTrue, OnFalse};
ghost use Rattle.std.specs.List.{position_from};
ghost use Rattle.lock_rules.specs.Conflicts.{conflicts};
ghost use Rattle.lock_table.specs.Empty.{IsEmptyFor};
ghost use Rattle.lock_table.specs.Keys.{IsShort};
ghost use Rattle.lock_table.specs.Queue.{edge_to, edges_of};
ghost use Rattle.lock_table.specs.Room.{HasEdges, HasRooms};
ghost use Rattle.deadlock.specs.Cycles.{IsCycleThrough, HasNoCycle, IsDepthFirst, AreCopies, AreShort};
ghost use Rattle.deadlock.specs.Steps.{is_wanted, next_edge, without, IsWayRound, WaitsFor};

use crate::cycle::{Cycle, copied_in};
use inno_types::{Edge, Edges};
use lock_table::{CycleRoom, EdgeRoom, KeptLock, LockTable};

/// Whether a search wants to come to this transaction: one where it has not been, or the one where it began.
fn is_wanted(txn: u64, start: u64, unvisited: &[u64]) -> bool
    ensures { result ≡ is_wanted start unvisited.now txn }
{
    txn == start || unvisited.contains(&txn)
}

/// The place of the transaction's request in the queue.
fn place_of(requests: &[KeptLock], txn: u64) -> Option<usize>
    ensures place { result ≡ position_from (λ asked. asked.txn == txn) 0 requests.now }
    ensures within { IfSome result (λ place. place < length requests.now) }
{
    for (place, asked) in requests.iter().enumerate() {
        if asked.txn() == txn {
            return Some(place);
        }
    }
    None
}

/// The first of the locks for which the request waits that is of a wanted transaction.
fn first_wanted<'a>(
    locks: &'a [KeptLock],
    asked: &KeptLock,
    start: u64,
    unvisited: &[u64],
) -> Option<&'a KeptLock>
    ensures { option_copied result ≡ find (λ lock. conflicts lock asked.now && is_wanted start unvisited.now lock.txn) locks.now }
{
    for lock in locks {
        if lock.conflicts(asked) && is_wanted(lock.txn(), start, unvisited) {
            return Some(lock);
        }
    }
    None
}

/// The first lock for which the transaction's request waits that is of a wanted transaction.
fn next_lock<'a>(
    locks: &'a LockTable,
    waiter: u64,
    start: u64,
    unvisited: &[u64],
) -> Option<&'a KeptLock>
    ensures { option_map (λ lock. edge_to waiter lock.now) result ≡ next_edge start unvisited.now (edges_of waiter locks.now.granted locks.now.waiting) }
{
    let requests = locks.requests();
    let place = place_of(requests, waiter)?;
    let asked = &requests[place];
    match first_wanted(locks.granted_locks(), asked, start, unvisited) {
        Some(lock) => Some(lock),
        None => first_wanted(&requests[..place], asked, start, unvisited),
    }
}

/// The search has been at the transaction.
fn visit(unvisited: &mut Vec<u64>, txn: u64)
    ensures items { unvisited.new.items ≡ without txn unvisited.old.items }
    ensures room { vec_capacity unvisited.new ≡ vec_capacity unvisited.old }
{
    unvisited.retain(|other| *other != txn);
}

/// Goes from the transaction to one for which it waits, and on, depth first, until an edge leads back to it. Where one
/// does, the path has the transactions of the cycle; where none does, there is no such cycle.
fn search(locks: &LockTable, start: u64, unvisited: &mut Vec<u64>, path: &mut Vec<u64>) -> bool
    requires others { unvisited.old.items ≡ without start (map (λ asked. asked.txn) locks.now.waiting) }
    requires empty { path.old.items ≡ [] }
    requires room { vec_len unvisited.old < vec_capacity path.old }
    ensures found { OnTrue result (IsWayRound start locks.now.granted locks.now.waiting path.new.items) }
    ensures none { OnFalse result (HasNoCycle start locks.now.granted locks.now.waiting) }
    ensures short { vec_len path.new ≤ vec_len unvisited.old + 1 }
    ensures emptied { OnFalse result (path.new.items ≡ []) }
    ensures path_room { vec_capacity path.new ≡ vec_capacity path.old }
    ensures other_room { vec_capacity unvisited.new ≡ vec_capacity unvisited.old }
{
    let mut at = start;
    loop {
        match next_lock(locks, at, start, unvisited) {
            Some(lock) => {
                path.push_reserved(at);
                at = lock.txn();
                if at == start {
                    return true;
                }
                visit(unvisited, at);
            }
            None => match path.pop() {
                Some(waiter) => at = waiter,
                None => return false,
            },
        }
    }
}

/// The transactions with requests in the queue, but for one.
fn others(requests: &[KeptLock], txn: u64, unvisited: &mut Vec<u64>)
    requires { IsEmptyFor (length requests.now) unvisited.old }
    ensures items { unvisited.new.items ≡ without txn (map (λ asked. asked.txn) requests.now) }
    ensures room { vec_capacity unvisited.new ≡ vec_capacity unvisited.old }
{
    for asked in requests {
        if asked.txn() != txn {
            unvisited.push_reserved(asked.txn());
        }
    }
}

/// The first edge by which the one waits for the other. The key holds that of its lock.
fn edge_between(locks: &LockTable, waiter: u64, holder: u64, key: Vec<u8>) -> Edge
    requires waits { WaitsFor locks.now.granted locks.now.waiting waiter holder }
    requires key { IsEmptyFor 67 key }
    ensures waiter { result.waiter ≡ waiter }
    ensures holder { result.holder ≡ holder }
    ensures short { IsShort result.lock.spot.key }
    ensures first { next_edge result.holder [] (edges_of result.waiter locks.now.granted locks.now.waiting) ≡ Some result }
{
    match next_lock(locks, waiter, holder, &[]) {
        Some(lock) => Edge {
            waiter,
            holder,
            lock: lock.lock_in(key),
        },
        None => unreachable!(),
    }
}

/// The edges of the cycle whose transactions are on the path, in memory that is there.
fn edges_along(locks: &LockTable, start: u64, path: &[u64], room: EdgeRoom) -> Edges
    requires way { IsWayRound start locks.now.granted locks.now.waiting path.now }
    requires room { HasEdges (length path.now) room }
    ensures cycle { IsCycleThrough start locks.now.granted locks.now.waiting result }
    ensures first { IsDepthFirst start locks.now.granted locks.now.waiting result }
    ensures long { length result ≡ length path.now }
    ensures short { AreShort result }
{
    let EdgeRoom {
        mut edges,
        mut keys,
    } = room;
    for (i, waiter) in path.iter().enumerate() {
        let holder = path.get(i + 1).copied().unwrap_or(start);
        // There is a key for each edge.
        let key = keys.pop().unwrap();
        edges.push_reserved(edge_between(locks, *waiter, holder, key));
    }
    Edges::from_vec(edges)
}

/// The cycle and its copies, in memory that is there.
fn cycle_along(locks: &LockTable, start: u64, room: CycleRoom) -> Cycle
    requires way { IsWayRound start locks.now.granted locks.now.waiting room.path.items }
    requires cycle { HasEdges (length room.path.items) room.cycle }
    requires first_copy { HasEdges (length room.path.items) room.first_copy }
    requires second_copy { HasEdges (length room.path.items) room.second_copy }
    ensures cycle { IsCycleThrough start locks.now.granted locks.now.waiting result.edges }
    ensures first { IsDepthFirst start locks.now.granted locks.now.waiting result.edges }
    ensures copies { AreCopies result }
{
    let CycleRoom {
        cycle,
        first_copy,
        second_copy,
        path,
        visits: _,
    } = room;
    let edges = edges_along(locks, start, &path, cycle);
    let first_copy = copied_in(&edges, first_copy);
    let second_copy = copied_in(&edges, second_copy);
    Cycle {
        edges,
        first_copy,
        second_copy,
    }
}

/// A cycle through the transaction, in the last of the rooms. Where there is none, the rooms are as before.
fn cycle_in(locks: &LockTable, txn: u64, rooms: &mut Vec<CycleRoom>) -> Option<Cycle>
    requires { HasRooms (length locks.now.waiting) rooms.old.items }
    ensures found { IfSome result (λ cycle. IsCycleThrough txn locks.now.granted locks.now.waiting cycle.edges) }
    ensures first { IfSome result (λ cycle. IsDepthFirst txn locks.now.granted locks.now.waiting cycle.edges) }
    ensures copies { IfSome result AreCopies }
    ensures none { IfNone result (HasNoCycle txn locks.now.granted locks.now.waiting) }
    ensures rooms { HasRooms (if is_some result then length locks.now.waiting - 1 else length locks.now.waiting) rooms.new.items }
{
    // One that does not wait is on no cycle.
    place_of(locks.requests(), txn)?;
    let mut room = rooms.pop()?;
    others(locks.requests(), txn, &mut room.visits);
    if search(locks, txn, &mut room.visits, &mut room.path) {
        return Some(cycle_along(locks, txn, room));
    }
    room.visits.clear();
    rooms.push_reserved(room);
    None
}

/// A cycle of waits through the transaction, if there is one. Where there are several, it is the first that a depth-first
/// search meets that goes along the edges of each transaction in order: granted locks by the time of their grant, then
/// earlier requests. Two copies go with it. Takes no memory: it uses up the room for one cycle.
/// MySQL 8.0 Reference Manual, "Deadlock Detection".
pub fn cycle_through(locks: &mut LockTable, txn: u64) -> Option<Cycle>
    requires { HasRooms (length locks.old.waiting) locks.old.rooms }
    ensures found { IfSome result (λ cycle. IsCycleThrough txn locks.old.granted locks.old.waiting cycle.edges) }
    ensures first { IfSome result (λ cycle. IsDepthFirst txn locks.old.granted locks.old.waiting cycle.edges) }
    ensures copies { IfSome result AreCopies }
    ensures none { IfNone result (HasNoCycle txn locks.old.granted locks.old.waiting) }
    ensures rest { locks.new ≡ record locks.old { rooms = locks.new.rooms } }
    ensures rooms { HasRooms (if is_some result then length locks.old.waiting - 1 else length locks.old.waiting) locks.new.rooms }
{
    let mut rooms = locks.take_rooms();
    let cycle = cycle_in(locks, txn, &mut rooms);
    locks.put_rooms(rooms);
    cycle
}
