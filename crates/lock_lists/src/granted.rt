//! The granted locks: their places in order of grant, with chains by spot and by transaction.
//! A lock that goes leaves its place empty; where places run out, the empty ones are given up. The lock table alone calls these.

ghost use Rattle.std.specs.Prelude.{◌≡◌, ℕ, ◌+◌, ◌*◌, ◌<◌, ◌≤◌, ◌==◌, [], ◌∷◌, ◌++◌, None, Some, not, filter, map, length, get_or, set, vec_capacity, IfNone, IfSome, IsSome, OnOk, OnErr, IsOk, ◌%◌, ◌^◌};
ghost use Rattle.std.specs.List.{list_any};
ghost use Rattle.lock_lists.specs.Looking.{passes};
ghost use Rattle.lock_lists.specs.Places.{locks_of, holds_at, is_of, HasFree, IsFirst, HasNoneFrom, IsLastSuch, HasNoneBelow, AreChained};

use crate::chains::Chains;
use crate::kept::KeptLock;
use crate::sought::Sought;
use std::alloc::{AllocError, Global};
use std::marker::Model;

/// Contracts see the lock of each place, in order of grant.
#[derive(Drop)]
pub struct GrantedLocks {
    alloc: Global,
    places: Vec<Option<KeptLock>>,
    /// By the number that locks of a spot share.
    spots: Chains,
    /// By transaction. A place stays in its chain when its lock goes.
    txns: Chains,
    count: usize,
    room: usize,
}

impl Model for GrantedLocks {
    ghost use Rattle.std.specs.Prelude.{vec_capacity};
    ghost use Rattle.lock_lists.specs.Places.{Granted, AreKept};

    ghost Value = { Granted };

    ghost view = { λ g. record { places = g.places.items; room = g.room } };

    ghost invariant = { λ g. AreKept g.places.items g.spots g.txns g.count g.room (vec_capacity g.places) };
}

/// The bucket of a number, of so many buckets.
fn bucket_of(number: u64, buckets: usize) -> usize
    requires { 0 < buckets }
    ensures same { result ≡ number % buckets }
    ensures within { result < buckets }
{
    (number % buckets as u64) as usize
}

/// A room for so many locks and more, or none where that is too large.
fn room_for(count: usize, more: usize) -> Option<usize>
    ensures enough { IfSome result (λ room. count + more ≤ room) }
    ensures fits { IfSome result (λ room. room + room < 2 ^ 64) }
{
    let wanted = count.checked_add(more)?.checked_mul(3)?;
    Some(wanted / 2)
}

/// Chains the locks anew, of which no place is empty.
fn chain(places: &[Option<KeptLock>], spots: &mut Chains, txns: &mut Chains)
    requires full { places.now ≡ map Some (locks_of places.now) }
    requires spots { spots.old.marks ≡ [] }
    requires txns { txns.old.marks ≡ [] }
    requires spots_room { length places.now ≤ spots.old.room }
    requires txns_room { length places.now ≤ txns.old.room }
    ensures chained { AreChained places.now spots.new txns.new }
    ensures spots_stay { spots.new.room ≡ spots.old.room }
    ensures txns_stay { txns.new.room ≡ txns.old.room }
{
    let buckets = spots.room();
    let owners = txns.room();
    for place in places.iter() {
        match place {
            Some(lock) => {
                spots.push(bucket_of(lock.sum(), buckets));
                txns.push(bucket_of(lock.txn(), owners));
            }
            None => {}
        }
    }
}

/// Gives up the empty places.
fn pack(places: &mut Vec<Option<KeptLock>>)
    ensures items { places.new.items ≡ map Some (locks_of places.old.items) }
    ensures fewer { length places.new.items ≤ length places.old.items }
    ensures capacity { vec_capacity places.new ≡ vec_capacity places.old }
{
    places.retain(|place| place.is_some());
}

impl GrantedLocks {
    /// No lock, and no memory for one.
    pub fn new(alloc: Global) -> Self
        ensures { result ≡ record { places = []; room = 0 } }
    {
        GrantedLocks {
            alloc,
            places: Vec::new(alloc),
            spots: Chains::new(alloc),
            txns: Chains::new(alloc),
            count: 0,
            room: 0,
        }
    }

    /// The first place from this one on that has a lock that is looked for. The other locks of its spot are walked.
    pub fn next(&self, sought: Sought<'_>, from: usize) -> Option<usize>
        ensures found { IfSome result (λ place. IsFirst (passes sought.entry) self.now.places from place) }
        ensures none { IfNone result (HasNoneFrom (passes sought.entry) self.now.places from) }
        ensures few { length self.now.places ≤ self.now.room + self.now.room }
        ensures fits { self.now.room + self.now.room < 2 ^ 64 }
    {
        if self.room == 0 {
            return None;
        }
        let bucket = bucket_of(sought.sum(), self.spots.room());
        let mut next = None;
        let mut end = self.spots.last_before(bucket, self.places.len());
        while end > from {
            if sought.stands_at(&self.places[end - 1]) {
                next = Some(end - 1);
            }
            end = self.spots.last_before(bucket, end - 1);
        }
        next
    }

    /// Whether there is a lock that is looked for.
    pub fn any(&self, sought: Sought<'_>) -> bool
        ensures { result ≡ list_any (passes sought.entry) (locks_of self.now.places) }
    {
        self.next(sought, 0).is_some()
    }

    /// The lock at the place.
    pub fn at(&self, place: usize) -> &KeptLock
        requires { IsSome (get_or self.now.places place None) }
        ensures { get_or self.now.places place None ≡ Some result.now }
    {
        match &self.places[place] {
            Some(lock) => lock,
            None => unreachable!(),
        }
    }

    /// How many locks there are.
    pub fn len(&self) -> usize
        ensures { result ≡ length (locks_of self.now.places) }
    {
        self.count
    }

    /// How many places there are.
    pub fn places(&self) -> usize
        ensures { result ≡ length self.now.places }
    {
        self.places.len()
    }

    /// Takes the memory for so many locks more.
    pub fn reserve(&mut self, more: usize) -> Result<(), AllocError>
        ensures room { OnOk result (length (locks_of self.old.places) + more ≤ self.new.room) }
        ensures same { OnErr result (self.new ≡ self.old) }
        ensures locks { locks_of self.new.places ≡ locks_of self.old.places }
        ensures stays { self.old.room ≤ self.new.room }
        ensures succeeds { length (locks_of self.old.places) + more ≤ self.old.room → IsOk result }
    {
        if self.count <= self.room && more <= self.room - self.count {
            return Ok(());
        }
        match room_for(self.count, more) {
            Some(room) => self.grow(room),
            None => Err(AllocError),
        }
    }

    /// Takes the memory for so many locks.
    fn grow(&mut self, room: usize) -> Result<(), AllocError>
        requires fits { room + room < 2 ^ 64 }
        requires more { self.old.room ≤ room }
        requires enough { length (locks_of self.old.places) ≤ room }
        ensures room { OnOk result (self.new.room ≡ room) }
        ensures same { OnErr result (self.new ≡ self.old) }
        ensures locks { locks_of self.new.places ≡ locks_of self.old.places }
        ensures stays { self.old.room ≤ self.new.room }
    {
        let mut spots = Chains::with_room(self.alloc, room + room)?;
        let mut txns = Chains::with_room(self.alloc, room + room)?;
        let more = (room + room).saturating_sub(self.places.len());
        self.places.reserve(more)?;
        pack(&mut self.places);
        chain(&self.places, &mut spots, &mut txns);
        self.spots = spots;
        self.txns = txns;
        self.room = room;
        Ok(())
    }

    /// Sees to places for so many locks more, for which there is memory: gives up the empty ones if they are wanted.
    pub fn ready(&mut self, more: usize)
        requires { length (locks_of self.old.places) + more ≤ self.old.room }
        ensures free { HasFree more self.new }
        ensures locks { locks_of self.new.places ≡ locks_of self.old.places }
        ensures room { self.new.room ≡ self.old.room }
    {
        if self.room + self.room - self.places.len() < more {
            pack(&mut self.places);
            self.spots.clear();
            self.txns.clear();
            chain(&self.places, &mut self.spots, &mut self.txns);
        }
    }

    /// Adds a lock behind all others. There is a place for it.
    pub fn push(&mut self, lock: KeptLock)
        requires { HasFree 1 self.old }
        ensures same { self.new ≡ record self.old { places = self.old.places ++ Some lock ∷ [] } }
        ensures locks { locks_of self.new.places ≡ locks_of self.old.places ++ lock ∷ [] }
        ensures longer { length self.new.places ≡ length self.old.places + 1 }
    {
        let spot = bucket_of(lock.sum(), self.spots.room());
        let owner = bucket_of(lock.txn(), self.txns.room());
        self.spots.push(spot);
        self.txns.push(owner);
        self.places.push_reserved(Some(lock));
        self.count += 1;
    }

    /// The lock of the place goes.
    pub fn take_out(&mut self, place: usize)
        requires { IsSome (get_or self.old.places place None) }
        ensures { self.new ≡ record self.old { places = set self.old.places place None } }
    {
        self.spots.unlink(place);
        self.places[place] = None;
        self.count -= 1;
    }

    /// Another lock of the same transaction takes the place of one.
    pub fn replace(&mut self, place: usize, lock: KeptLock)
        requires held { IsSome (get_or self.old.places place None) }
        requires owner { IfSome (get_or self.old.places place None) (λ held. held.txn ≡ lock.txn) }
        ensures { self.new ≡ record self.old { places = set self.old.places place (Some lock) } }
    {
        let bucket = bucket_of(lock.sum(), self.spots.room());
        self.spots.unlink(place);
        self.spots.link(place, bucket);
        self.places[place] = Some(lock);
    }

    /// The last of the first places, as many as the limit, that has a lock of the transaction.
    fn last_of(&self, txn: u64, limit: usize) -> Option<usize>
        requires { limit ≤ length self.now.places }
        ensures found { IfSome result (λ place. IsLastSuch (is_of txn) self.now.places limit place) }
        ensures none { IfNone result (HasNoneBelow (is_of txn) self.now.places limit) }
    {
        if self.room == 0 {
            return None;
        }
        let bucket = bucket_of(txn, self.txns.room());
        let mut end = self.txns.last_before(bucket, limit);
        while end > 0 {
            if is_held_by(&self.places[end - 1], txn) {
                return Some(end - 1);
            }
            end = self.txns.last_before(bucket, end - 1);
        }
        None
    }

    /// The transaction ends: its locks go, and no others are walked.
    pub fn end(&mut self, txn: u64)
        ensures locks { locks_of self.new.places ≡ filter (λ lock. not (lock.txn == txn)) (locks_of self.old.places) }
        ensures room { self.new.room ≡ self.old.room }
    {
        let mut limit = self.places();
        while let Some(place) = self.last_of(txn, limit) {
            self.take_out(place);
            limit = place;
        }
    }
}

/// Whether the place has a lock of the transaction.
fn is_held_by(place: &Option<KeptLock>, txn: u64) -> bool
    ensures { result ≡ holds_at (is_of txn) place.now }
{
    match place {
        Some(lock) => lock.txn() == txn,
        None => false,
    }
}
