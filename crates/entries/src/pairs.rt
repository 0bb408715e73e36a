//! The pairs of an index in memory, in a map that is ordered by their keys. `ListIndex` alone calls these.
//! Which actor stands where, and who is awaited, is not known here.

ghost use Rattle.std.specs.Prelude.{◌≡◌, ◌≤◌, ◌^◌, true, false, [], length, Some, MatchResult, IfOk, OnOk, OnErr, IsOk, vec_capacity, find, is_some, option_map, if◌then◌else◌};
ghost use Rattle.std.specs.Ordering.{nat_cmp};
ghost use Rattle.std.specs.Cmp.Lexicographic.{slice_cmp};
ghost use Rattle.std.specs.Map.{lookup};
ghost use Rattle.std.specs.BTreeMap.{is_at, insert_entry};
ghost use Rattle.std.specs.Range.Bound.{bound_map};
ghost use Rattle.std.specs.BTreeMap.Range.{is_from_start};
ghost use Rattle.std.specs.Map.Iter.{deref_pair};
ghost use Rattle.entries.specs.Pairs.{AreSound, IsShort, key_cmp, value_of, first_from, first_after, with_pair, without_key};
ghost use Rattle.entries.specs.Calls.{HasKey, is_as_long};

use inno_types::Bytes;
use std::alloc::{AllocError, Global};
use std::collections::BTreeMap;
use std::collections::btree_map::Entry;
use std::marker::Model;
use std::mem;
use std::ops::Bound;

#[derive(Drop)]
pub struct SortedPairs {
    stored: BTreeMap<Bytes, Bytes>,
}

impl Model for SortedPairs {
    ghost use Rattle.std.specs.Prelude.{List};
    ghost use Rattle.entries.specs.Pairs.{Pair, AreSound};

    ghost Value = { List Pair };

    ghost view = { λ p. p.stored.entries };

    ghost invariant = { λ p. AreSound p.stored.entries };
}

impl SortedPairs {
    pub(crate) fn new(alloc: Global) -> Self
        ensures { result ≡ [] }
    {
        SortedPairs {
            stored: BTreeMap::new(alloc),
        }
    }

    /// The keys rise, and no key or value is too long. It does nothing.
    pub(crate) fn are_sound(&self)
        ensures { AreSound self.now }
    {
        let _ = &self.stored;
    }

    /// The first pair from this key on, or above it.
    fn first<'a>(&'a self, from: Bound<&Bytes>) -> Option<(&'a Bytes, &'a Bytes)>
        ensures found { option_map deref_pair result ≡ find (λ pair. is_from_start key_cmp (bound_map (λ key. key.now) from.entry) pair.0) self.now }
        ensures sound { AreSound self.now }
    {
        let mut pairs = self.stored.range((from, Bound::Unbounded));
        pairs.next()
    }

    /// The first pair at or above the key, if there is one.
    pub(crate) fn first_from(&self, key: &Bytes) -> Option<(&Bytes, &Bytes)>
        ensures found { option_map deref_pair result ≡ first_from key.now self.now }
    {
        self.first(Bound::Included(key))
    }

    /// The first pair above the key, if there is one.
    pub(crate) fn first_after(&self, key: &Bytes) -> Option<(&Bytes, &Bytes)>
        ensures found { option_map deref_pair result ≡ first_after key.now self.now }
    {
        self.first(Bound::Excluded(key))
    }

    /// Puts the key's value into `into`, and answers whether the key is there.
    pub(crate) fn read_value(&self, key: &Bytes, into: &mut Vec<u8>) -> bool
        requires { 1024 ≤ vec_capacity into.old }
        ensures found { result ≡ is_some (value_of key.now self.now) }
        ensures value { result ≡ true → value_of key.now self.now ≡ Some into.new.items }
        ensures untouched { result ≡ false → into.new.items ≡ into.old.items }
        ensures room { vec_capacity into.old ≤ vec_capacity into.new }
    {
        match self.stored.get(key) {
            Some(value) => {
                copy_into(value.as_slice(), into);
                true
            }
            None => false,
        }
    }

    /// Puts the first key above this one into `into`, and answers whether there is one.
    pub(crate) fn read_key_after(&self, key: &Bytes, into: &mut Vec<u8>) -> bool
        requires { 67 ≤ vec_capacity into.old }
        ensures found { result ≡ is_some (first_after key.now self.now) }
        ensures key { result ≡ true → HasKey into.new.items (first_after key.now self.now) }
        ensures untouched { result ≡ false → into.new.items ≡ into.old.items }
        ensures room { vec_capacity into.old ≤ vec_capacity into.new }
    {
        match self.first(Bound::Excluded(key)) {
            Some((next, _)) => {
                copy_into(next.as_slice(), into);
                true
            }
            None => false,
        }
    }

    /// Adds a pair, unless the key is there: then answers its value.
    pub(crate) fn insert(&mut self, key: &Bytes, value: &Bytes) -> Result<Option<Bytes>, AllocError>
        requires { IsShort (key.now, value.now) }
        ensures kept { IfOk result (λ kept. kept ≡ value_of key.now self.old) }
        ensures ok { IfOk result (λ kept. self.new ≡ (if is_some kept then self.old else with_pair key.now value.now self.old)) }
        ensures err { OnErr result (self.new ≡ self.old) }
        ensures sound { AreSound self.new }
    {
        put_new(&mut self.stored, key.copied()?, value.copied()?)
    }

    /// Gives the key another value, and answers whether the key is there. A value that is as long takes no memory.
    pub(crate) fn replace(
        &mut self,
        alloc: Global,
        key: &Bytes,
        value: &Bytes,
    ) -> Result<bool, AllocError>
        requires { length value.now ≤ 1024 }
        ensures found { IfOk result (λ found. found ≡ is_some (value_of key.now self.old)) }
        ensures ok { IfOk result (λ found. self.new ≡ (if found then with_pair key.now value.now self.old else self.old)) }
        ensures err { OnErr result (self.new ≡ self.old) }
        ensures resized { OnErr result (is_as_long value.now (value_of key.now self.old) ≡ false) }
        ensures sound { AreSound self.new }
    {
        match self.length_of(key) {
            None => Ok(false),
            Some(len) => {
                if len == value.len() {
                    self.overwrite(alloc, key, value);
                } else {
                    self.resize(key, value)?;
                }
                Ok(true)
            }
        }
    }

    /// How long the key's value is.
    fn length_of(&self, key: &Bytes) -> Option<usize>
        ensures length { result ≡ option_map (λ value. length value) (value_of key.now self.now) }
        ensures sound { AreSound self.now }
    {
        match self.stored.get(key) {
            Some(value) => Some(value.len()),
            None => None,
        }
    }

    /// Gives the key another value that is as long.
    fn overwrite(&mut self, alloc: Global, key: &Bytes, value: &Bytes)
        requires there { option_map (λ kept. length kept) (value_of key.now self.old) ≡ Some (length value.now) }
        requires fits { length value.now ≤ 1024 }
        ensures put { self.new ≡ with_pair key.now value.now self.old }
        ensures sound { AreSound self.new }
    {
        if let Some(kept) = self.stored.get_mut(key) {
            fill(alloc, kept, value);
        }
    }

    /// Gives the key another value.
    fn resize(&mut self, key: &Bytes, value: &Bytes) -> Result<(), AllocError>
        requires there { is_some (value_of key.now self.old) ≡ true }
        requires fits { length value.now ≤ 1024 }
        ensures ok { OnOk result (self.new ≡ with_pair key.now value.now self.old) }
        ensures err { OnErr result (self.new ≡ self.old) }
        ensures sound { AreSound self.new }
    {
        self.stored.insert(key.copied()?, value.copied()?)?;
        Ok(())
    }

    /// Removes the key's pair, and answers whether it was there.
    pub(crate) fn remove(&mut self, key: &Bytes) -> bool
        ensures found { result ≡ is_some (value_of key.now self.old) }
        ensures removed { self.new ≡ (if result then without_key key.now self.old else self.old) }
        ensures sound { AreSound self.new }
    {
        self.stored.remove(key).is_some()
    }
}

/// Puts a value at a key that isn't there, or answers a copy of the value that is. The key is looked for once.
fn put_new(
    stored: &mut BTreeMap<Bytes, Bytes>,
    key: Bytes,
    value: Bytes,
) -> Result<Option<Bytes>, AllocError>
    ensures kept { IfOk result (λ kept. kept ≡ lookup (is_at (slice_cmp nat_cmp key)) stored.old.entries) }
    ensures ok { IfOk result (λ kept. stored.new.entries ≡ (if is_some kept then stored.old.entries else insert_entry (slice_cmp nat_cmp) stored.old.entries key value)) }
    ensures err { OnErr result (stored.new.entries ≡ stored.old.entries) }
{
    match stored.entry(key)? {
        Entry::Occupied(found) => Ok(Some(found.get().copied()?)),
        Entry::Vacant(gap) => {
            gap.insert(value);
            Ok(None)
        }
    }
}

/// Puts another value in place of this one, which is as long.
fn fill(alloc: Global, kept: &mut Bytes, value: &Bytes)
    requires { length kept.old ≡ length value.now }
    ensures { kept.new ≡ value.now }
{
    let mut bytes = mem::replace(kept, Bytes::new(alloc)).into_vec();
    bytes.copy_from_slice(value.as_slice());
    *kept = Bytes::from_vec(bytes);
}

/// Puts these bytes in place of those that are there.
fn copy_into(bytes: &[u8], into: &mut Vec<u8>)
    requires { length bytes.now ≤ vec_capacity into.old }
    ensures items { into.new.items ≡ bytes.now }
    ensures room { vec_capacity into.old ≤ vec_capacity into.new }
{
    into.clear();
    let _ = into.extend_from_slice(bytes);
}
