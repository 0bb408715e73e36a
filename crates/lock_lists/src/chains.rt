//! The chains: of each bucket its newest place, and of each place the next older one of its bucket.
//! A link says how many places end with the one that it leads to, and 0 is none. Links lead back, so a walk along them ends.

ghost use Rattle.std.specs.Prelude.{◌≡◌, ◌≢◌, ℕ, ◌+◌, ◌<◌, ◌≤◌, [], ◌∷◌, ◌++◌, None, Some, length, get_or, set, IfOk};
ghost use Rattle.lock_lists.specs.Last.{IsLast, IsNext, AreLinked};

use std::alloc::{AllocError, Global};
use std::marker::Model;

/// The buckets of the places, in order, and the links between them.
#[derive(Drop)]
pub struct Chains {
    /// Of each bucket its newest place.
    newest: Vec<usize>,
    /// Of each place the bucket.
    marks: Vec<Option<usize>>,
    /// Of each place the next older one of its bucket.
    older: Vec<usize>,
}

impl Model for Chains {
    ghost use Rattle.std.specs.Prelude.{length, vec_capacity, ◌≤◌};
    ghost use Rattle.lock_lists.specs.Last.{Chained, AreLinked};

    ghost Value = { Chained };

    ghost view = { λ c. record { marks = c.marks.items; room = length c.newest.items } };

    ghost invariant = { λ c. AreLinked c.newest.items c.marks.items c.older.items × (length c.newest.items ≤ vec_capacity c.marks) × (length c.newest.items ≤ vec_capacity c.older) };
}

/// How many of the first places end with the last one of the bucket.
fn last_before(
    newest: &[usize],
    marks: &[Option<usize>],
    older: &[usize],
    bucket: usize,
    limit: usize,
) -> usize
    requires linked { AreLinked newest.now marks.now older.now }
    requires bucket { bucket < length newest.now }
    requires within { limit ≤ length marks.now }
    ensures { IsLast bucket marks.now limit result }
{
    if limit < marks.len() && marks[limit] == Some(bucket) {
        return older[limit];
    }
    let mut at = newest[bucket];
    while at > limit {
        at = older[at - 1];
    }
    at
}

/// The first place of the bucket from this one on, or the number of all places.
fn next_from(
    newest: &[usize],
    marks: &[Option<usize>],
    older: &[usize],
    bucket: usize,
    from: usize,
) -> usize
    requires linked { AreLinked newest.now marks.now older.now }
    requires bucket { bucket < length newest.now }
    ensures { IsNext bucket marks.now from result }
{
    let mut next = marks.len();
    let mut at = newest[bucket];
    while at > from {
        next = at - 1;
        at = older[next];
    }
    next
}

impl Chains {
    /// No place, and no memory for one.
    pub fn new(alloc: Global) -> Self
        ensures { result ≡ record { marks = []; room = 0 } }
    {
        Chains {
            newest: Vec::new(alloc),
            marks: Vec::new(alloc),
            older: Vec::new(alloc),
        }
    }

    /// The memory for so many places, and as many buckets.
    pub fn with_room(alloc: Global, room: usize) -> Result<Self, AllocError>
        ensures { IfOk result (λ chains. chains ≡ record { marks = []; room = room }) }
    {
        Ok(Chains {
            newest: vec![in alloc; 0; room]?,
            marks: Vec::with_capacity(alloc, room)?,
            older: Vec::with_capacity(alloc, room)?,
        })
    }

    /// For so many places there is memory.
    pub fn room(&self) -> usize
        ensures { result ≡ self.now.room }
    {
        self.newest.len()
    }

    /// Forgets all places. The memory stays.
    pub fn clear(&mut self)
        ensures { self.new ≡ record self.old { marks = [] } }
    {
        self.newest.fill(0);
        self.marks.clear();
        self.older.clear();
    }

    /// How many of the first places end with the last one of the bucket. 0 is none.
    pub fn last_before(&self, bucket: usize, limit: usize) -> usize
        requires bucket { bucket < self.now.room }
        requires within { limit ≤ length self.now.marks }
        ensures { IsLast bucket self.now.marks limit result }
    {
        last_before(&self.newest, &self.marks, &self.older, bucket, limit)
    }

    /// Adds a place. There is room for it.
    pub fn push(&mut self, bucket: usize)
        requires bucket { bucket < self.old.room }
        requires room { length self.old.marks < self.old.room }
        ensures { self.new ≡ record self.old { marks = self.old.marks ++ Some bucket ∷ [] } }
    {
        let newest = self.newest[bucket];
        self.older.push_reserved(newest);
        self.marks.push_reserved(Some(bucket));
        self.newest[bucket] = self.marks.len();
    }

    /// Takes the place out of its bucket.
    pub fn unlink(&mut self, place: usize)
        requires { place < length self.old.marks }
        ensures { self.new ≡ record self.old { marks = set self.old.marks place None } }
    {
        if let Some(bucket) = self.marks[place] {
            let older = self.older[place];
            let next = next_from(&self.newest, &self.marks, &self.older, bucket, place + 1);
            self.marks[place] = None;
            if next < self.marks.len() {
                self.older[next] = older;
            } else {
                self.newest[bucket] = older;
            }
        }
    }

    /// Puts the place into a bucket.
    pub fn link(&mut self, place: usize, bucket: usize)
        requires place { place < length self.old.marks }
        requires free { get_or self.old.marks place None ≡ None }
        requires bucket { bucket < self.old.room }
        ensures { self.new ≡ record self.old { marks = set self.old.marks place (Some bucket) } }
    {
        let older = last_before(&self.newest, &self.marks, &self.older, bucket, place);
        let next = next_from(&self.newest, &self.marks, &self.older, bucket, place);
        self.marks[place] = Some(bucket);
        self.older[place] = older;
        if next < self.marks.len() {
            self.older[next] = place + 1;
        } else {
            self.newest[bucket] = place + 1;
        }
    }
}
