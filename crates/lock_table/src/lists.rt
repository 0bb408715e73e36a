//! The lists of a lock table: what stands in the way of a request, and what a change makes of the requests that wait.
//! The lock table alone calls these.

ghost use Rattle.std.specs.Prelude.{◌≡◌, ◌+◌, ◌<◌, ◌≤◌, ◌||◌, false, [], ◌∷◌, ◌++◌, length, take, drop, map, filter, vec_capacity, IfOk, OnOk};
ghost use Rattle.std.specs.List.{list_any};
ghost use Rattle.lock_rules.specs.Kinds as kinds;
ghost use Rattle.lock_rules.specs.Conflicts.{conflicts, same_lock};
ghost use Rattle.lock_table.specs.Keys.{IsShort};
ghost use Rattle.lock_table.specs.Queue as queue;
ghost use Rattle.lock_table.specs.Records as records;
ghost use Rattle.lock_table.specs.View.{granted_with};

use crate::kept::KeptLock;
use inno_types::{Edge, Edges, Lock, LockKind, Spot};
use lock_rules::{Rule, is_upper, locks_gap};
use std::alloc::{AllocError, Global};

fn any_conflicts(locks: &[KeptLock], asked: &KeptLock) -> bool
    ensures { result ≡ list_any (λ lock. conflicts lock asked.now) locks.now }
{
    locks.iter().any(|lock| lock.conflicts(asked))
}

/// Whether one of the locks covers this one.
pub fn is_covered(locks: &[KeptLock], asked: &KeptLock) -> bool
    ensures { result ≡ queue.is_covered locks.now asked.now }
{
    locks.iter().any(|lock| lock.covers(asked))
}

/// Whether a granted lock or an earlier request keeps this one from being granted.
pub fn is_blocked(held: &[KeptLock], earlier: &[KeptLock], asked: &KeptLock) -> bool
    ensures { result ≡ queue.is_blocked held.now earlier.now asked.now }
{
    any_conflicts(held, asked) || any_conflicts(earlier, asked)
}

/// Whether the transaction has a request.
pub fn is_waiting(waiting: &[KeptLock], txn: u64) -> bool
    ensures { result ≡ queue.is_waiting txn waiting.now }
{
    waiting.iter().any(|asked| asked.txn() == txn)
}

/// Whether this lock, by this reason, is one of the locks.
pub fn stands(locks: &[KeptLock], lock: &Lock) -> bool
    ensures { result ≡ list_any (λ held. same_lock held lock.now) locks.now }
{
    locks.iter().any(|held| held.is_same(lock))
}

/// Whether the transaction is one of these.
pub fn is_among(txns: &[u64], txn: u64) -> bool
    ensures { result ≡ queue.is_among txn txns.now }
{
    txns.contains(&txn)
}

/// Keeps what the other transactions have.
pub fn keep_others(locks: &mut Vec<KeptLock>, txn: u64)
    ensures items { locks.new.items ≡ queue.without txn locks.old.items }
    ensures fewer { length locks.new.items ≤ length locks.old.items }
    ensures capacity { vec_capacity locks.new ≡ vec_capacity locks.old }
{
    locks.retain(|lock| lock.txn() != txn);
}

/// Keeps the other locks.
pub fn give_back(locks: &mut Vec<KeptLock>, gone: &Lock)
    ensures items { locks.new.items ≡ queue.without_lock gone.now locks.old.items }
    ensures fewer { length locks.new.items ≤ length locks.old.items }
    ensures capacity { vec_capacity locks.new ≡ vec_capacity locks.old }
{
    locks.retain(|lock| !lock.is_same(gone));
}

/// Keeps the requests on other spots.
fn keep_elsewhere(waiting: &mut Vec<KeptLock>, gone: &Spot)
    ensures { waiting.new.items ≡ records.elsewhere gone.now waiting.old.items }
{
    waiting.retain(|asked| !asked.is_at(gone));
}

/// Grants each request in order, unless a granted lock or an earlier request that still waits blocks it.
pub fn serve(granted: &mut Vec<KeptLock>, waiting: &mut Vec<KeptLock>)
    requires { length granted.old.items + length waiting.old.items ≤ vec_capacity granted.old }
    ensures granted { granted.new.items ≡ (queue.serve granted.old.items [] waiting.old.items).granted }
    ensures waiting { waiting.new.items ≡ (queue.serve granted.old.items [] waiting.old.items).waiting }
    ensures room { length granted.new.items + length waiting.new.items ≤ vec_capacity granted.new }
    ensures fewer { length waiting.new.items ≤ length waiting.old.items }
    ensures capacity { vec_capacity granted.new ≡ vec_capacity granted.old }
{
    let mut earlier = 0;
    while earlier < waiting.len() {
        if is_blocked(granted, &waiting[..earlier], &waiting[earlier]) {
            earlier += 1;
        } else {
            let lock = waiting.remove(earlier);
            granted.push_reserved(lock);
        }
    }
}

fn edge_to(alloc: Global, waiter: u64, lock: &KeptLock) -> Result<Edge, AllocError>
    ensures { IfOk result (λ edge. edge ≡ queue.edge_to waiter lock.now) }
{
    Ok(Edge {
        waiter,
        holder: lock.txn(),
        lock: lock.to_lock(alloc)?,
    })
}

/// Adds an edge to each of the locks that blocks the request.
fn push_edges(
    alloc: Global,
    locks: &[KeptLock],
    asked: &KeptLock,
    edges: &mut Vec<Edge>,
) -> Result<(), AllocError>
    ensures { OnOk result (edges.new.items ≡ edges.old.items ++ map (queue.edge_to asked.now.txn) (filter (λ lock. conflicts lock asked.now) locks.now)) }
{
    for lock in locks {
        if lock.conflicts(asked) {
            edges.push(edge_to(alloc, asked.txn(), lock)?)?;
        }
    }
    Ok(())
}

/// All for which the request waits behind these.
pub fn edges_to(
    alloc: Global,
    held: &[KeptLock],
    earlier: &[KeptLock],
    asked: &KeptLock,
) -> Result<Edges, AllocError>
    ensures { IfOk result (λ edges. edges ≡ map (queue.edge_to asked.now.txn) (queue.blockers held.now earlier.now asked.now)) }
{
    let mut edges = Vec::new(alloc);
    push_edges(alloc, held, asked, &mut edges)?;
    push_edges(alloc, earlier, asked, &mut edges)?;
    Ok(Edges::from_vec(edges))
}

/// All for which the transaction's request waits.
pub fn edges_of(
    alloc: Global,
    granted: &[KeptLock],
    waiting: &[KeptLock],
    txn: u64,
) -> Result<Edges, AllocError>
    ensures { IfOk result (λ edges. edges ≡ queue.edges_of txn granted.now waiting.now) }
{
    for (i, asked) in waiting.iter().enumerate() {
        if asked.txn() == txn {
            return edges_to(alloc, granted, &waiting[..i], asked);
        }
    }
    Ok(Edges::new(alloc))
}

/// Whether the lock becomes a gap lock when its record goes.
fn becomes_gap(by: Option<u64>, lock: &KeptLock) -> bool
    ensures { result ≡ records.becomes_gap by lock.now }
{
    let rule = lock.reason().rule;
    let undone = by == Some(lock.txn())
        && (rule == Rule::Inserted.number() || rule == Rule::Changed.number());
    !is_intent(lock.kind()) && !undone && outlives_record(lock)
}

pub fn is_intent(kind: LockKind) -> bool
    ensures { result ≡ kinds.is_intent kind }
{
    match kind {
        LockKind::Intent => true,
        LockKind::Rec | LockKind::Gap | LockKind::NextKey => false,
    }
}

/// At the lower levels few locks outlive their record.
fn outlives_record(lock: &KeptLock) -> bool
    ensures { result ≡ records.outlives_record lock.now }
{
    let reason = lock.reason();
    is_upper(reason.level)
        || reason.rule == Rule::DuplicateCheck.number()
        || reason.rule == Rule::RecordWent.number()
        || reason.rule == Rule::CopiedOnInsert.number()
}

/// Whether a lock beside the one at the place covers this one.
fn others_cover(locks: &[KeptLock], place: usize, asked: &KeptLock) -> bool
    requires { place < length locks.now }
    ensures { result ≡ (queue.is_covered (take place locks.now) asked.now || queue.is_covered (drop (place + 1) locks.now) asked.now) }
{
    is_covered(&locks[..place], asked) || is_covered(&locks[place + 1..], asked)
}

/// A record goes: each lock on it becomes a gap lock on the next spot, or goes. A gap lock that another lock covers goes too.
pub fn move_locks(granted: &mut Vec<KeptLock>, by: Option<u64>, gone: &Spot, next: &Spot)
    requires { IsShort next.now.key }
    ensures items { granted.new.items ≡ records.moved by gone.now next.now granted.old.items }
    ensures fewer { length granted.new.items ≤ length granted.old.items }
    ensures capacity { vec_capacity granted.new ≡ vec_capacity granted.old }
{
    let mut i = 0;
    while i < granted.len() {
        let lock = &granted[i];
        if !lock.is_at(gone) {
            i += 1;
        } else if becomes_gap(by, lock)
            && !others_cover(granted, i, &lock.as_gap(Rule::RecordWent.number(), next))
        {
            granted[i] = lock.as_gap(Rule::RecordWent.number(), next);
            i += 1;
        } else {
            let _ = granted.remove(i);
        }
    }
}

/// Grants the gap lock, unless a granted lock covers it.
fn add_gap(granted: &mut Vec<KeptLock>, gap: KeptLock)
    requires { queue.is_covered granted.old.items gap ≡ false → length granted.old.items < vec_capacity granted.old }
    ensures items { granted.new.items ≡ granted.old.items ++ records.uncovered granted.old.items (gap ∷ []) }
    ensures capacity { vec_capacity granted.new ≡ vec_capacity granted.old }
{
    if !is_covered(granted, &gap) {
        granted.push_reserved(gap);
    }
}

/// Grants the lock, unless a granted lock covers it or it is an intention.
pub fn add_lock(granted: &mut Vec<KeptLock>, lock: KeptLock)
    requires { length granted.old.items < vec_capacity granted.old }
    ensures items { granted.new.items ≡ granted_with granted.old.items lock }
    ensures few { length granted.new.items ≤ length granted.old.items + 1 }
    ensures capacity { vec_capacity granted.new ≡ vec_capacity granted.old }
{
    if !is_covered(granted, &lock) && !is_intent(lock.kind()) {
        granted.push_reserved(lock);
    }
}

/// A record goes: each request on it ends its wait, and leaves the gap lock that its lock would have become.
pub fn leave_gaps(
    granted: &mut Vec<KeptLock>,
    waiting: &mut Vec<KeptLock>,
    by: Option<u64>,
    gone: &Spot,
    next: &Spot,
)
    requires short { IsShort next.now.key }
    requires room { length granted.old.items + length waiting.old.items ≤ vec_capacity granted.old }
    ensures granted { granted.new.items ≡ granted.old.items ++ records.uncovered granted.old.items (records.left_by by gone.now next.now waiting.old.items) }
    ensures waiting { waiting.new.items ≡ records.elsewhere gone.now waiting.old.items }
    ensures fewer { length waiting.new.items ≤ length waiting.old.items }
    ensures room { length granted.new.items + length waiting.new.items ≤ vec_capacity granted.new }
    ensures capacity { vec_capacity granted.new ≡ vec_capacity granted.old }
{
    for asked in waiting.iter() {
        if asked.is_at(gone) && becomes_gap(by, asked) {
            add_gap(granted, asked.as_gap(Rule::RecordWent.number(), next));
        }
    }
    keep_elsewhere(waiting, gone);
}

/// Whether the lock is one of the transaction, of the gap before the spot.
fn is_own_gap(lock: &KeptLock, txn: u64, next: &Spot) -> bool
    ensures { result ≡ records.is_own_gap txn next.now lock.now }
{
    lock.txn() == txn && lock.is_at(next) && locks_gap(lock.kind())
}

/// How many locks of the gap before the spot the transaction has.
pub fn own_gaps(granted: &[KeptLock], txn: u64, next: &Spot) -> usize
    ensures count { result ≡ records.own_gaps txn next.now granted.now }
    ensures within { result ≤ length granted.now }
{
    granted
        .iter()
        .filter(|lock| is_own_gap(lock, txn, next))
        .count()
}

/// Copies the inserter's own locks of the gap into which a record was inserted to the record. There is room for them. A copy
/// that a granted lock covers is left out.
pub fn copy_gaps(granted: &mut Vec<KeptLock>, txn: u64, new: &Spot, next: &Spot)
    requires short { IsShort new.now.key }
    requires room { length granted.old.items + records.own_gaps txn next.now granted.old.items ≤ vec_capacity granted.old }
    ensures items { granted.new.items ≡ granted.old.items ++ records.copies txn new.now next.now granted.old.items }
    ensures few { length granted.new.items ≤ length granted.old.items + records.own_gaps txn next.now granted.old.items }
    ensures capacity { vec_capacity granted.new ≡ vec_capacity granted.old }
{
    for i in 0..granted.len() {
        let lock = &granted[i];
        if is_own_gap(lock, txn, next) {
            let copy = lock.as_gap(Rule::CopiedOnInsert.number(), new);
            add_gap(granted, copy);
        }
    }
}
