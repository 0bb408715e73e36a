//! Older versions by roll pointers: a vector of slots, in which a pointer is its slot's place, counted from 1. A slot is
//! taken when its pointer is promised, and filled when the version is kept.

ghost use Rattle.std.specs.Prelude.{◌≡◌, ◌≤◌, ◌<◌, ◌+◌, ◌-◌, [], ◌∷◌, ◌++◌, length, slice_set, None, Some, IfOk, IfSome, OnOk, OnErr, option_copied, vec_capacity, false};
ghost use Rattle.row_versions.specs.Versions.{IsShort, IsPointer};
ghost use Rattle.row_versions.specs.Calls.{ShowsVersion, ShowsBytes, has_read};
ghost use Rattle.list_store.specs.Slots.{kept_behind, slotted};

use index_store::copy_into;
use row_versions::{ChainBad, Kept};
use std::alloc::{AllocError, Global};
use std::marker::Model;
use store_api::{NoMemory, Version, Visit};

#[derive(Drop)]
pub struct Slots {
    slots: Vec<Option<Kept>>,
}

impl Model for Slots {
    ghost use Rattle.std.specs.Prelude.{List, Option};
    ghost use Rattle.row_versions.specs.declared.kept.Kept.{Kept};
    ghost use Rattle.list_store.specs.Slots.{AreShort};

    ghost Value = { List (Option Kept) };

    ghost view = { λ s. s.slots.items };

    ghost invariant = { λ s. AreShort s.slots.items };
}

impl Slots {
    pub fn new(alloc: Global) -> Self
        ensures { result ≡ [] }
    {
        Slots {
            slots: Vec::new(alloc),
        }
    }

    /// Takes a slot, and gives its pointer.
    #[tactic(auto, using(crate::proofs::Filled::short_taken))]
    pub fn take(&mut self) -> Result<u64, NoMemory>
        ensures pointer { IfOk result (λ pointer. pointer ≡ length self.old + 1) }
        ensures ok { OnOk result (self.new ≡ self.old ++ None ∷ []) }
        ensures err { OnErr result (self.new ≡ self.old) }
    {
        self.slots.push(None)?;
        Ok(self.slots.len() as u64)
    }

    /// Fills the slot of this pointer.
    #[tactic(auto, using(crate::proofs::Filled::short_filled))]
    pub fn fill(&mut self, pointer: u64, kept: Kept)
        requires above { 0 < pointer }
        requires there { pointer ≤ length self.old }
        requires short { IsShort kept }
        ensures { self.new ≡ slice_set self.old (pointer - 1) (Some kept) }
    {
        self.slots[(pointer - 1) as usize] = Some(kept);
    }

    /// What is kept for the pointer, if anything.
    fn at(&self, pointer: u64) -> Option<&Kept>
        ensures value { option_copied result ≡ kept_behind self.now pointer }
        ensures short { IfSome (kept_behind self.now pointer) IsShort }
    {
        let _ = &self.slots;
        if pointer == 0 {
            return None;
        }
        match self.slots.get((pointer - 1) as usize) {
            Some(Some(kept)) => Some(kept),
            _ => None,
        }
    }

    /// The version of a pointer, or `None` for pointer 0.
    pub fn version(&self, pointer: u64) -> Result<Option<Version>, ChainBad>
        requires { IsPointer pointer (slotted self.now) }
        ensures { ShowsVersion pointer (slotted self.now) (slotted self.now) result }
    {
        match self.at(pointer) {
            None => Ok(None),
            Some(kept) => match copy_version(&kept.version) {
                Ok(version) => Ok(Some(version)),
                Err(_) => Err(ChainBad::NoMemory),
            },
        }
    }

    /// Puts the encoded version of a pointer into `into`, or answers false for pointer 0.
    pub fn value(&self, pointer: u64, into: &mut Vec<u8>) -> Result<bool, Visit>
        requires pointer { IsPointer pointer (slotted self.now) }
        requires holds { 1024 ≤ vec_capacity into.old }
        ensures answer { ShowsBytes pointer into.new.items (slotted self.now) (slotted self.now) result }
        ensures untouched { has_read result ≡ false → into.new.items ≡ into.old.items }
        ensures room { vec_capacity into.old ≤ vec_capacity into.new }
    {
        match self.at(pointer) {
            None => Ok(false),
            Some(kept) => {
                copy_into(kept.bytes.as_slice(), into);
                Ok(true)
            }
        }
    }
}

/// The same version.
fn copy_version(version: &Version) -> Result<Version, AllocError>
    ensures { IfOk result (λ copy. copy ≡ version.now) }
{
    Ok(Version {
        row: version.row.copied()?,
        writer: version.writer,
        pointer: version.pointer,
        marked: version.marked,
    })
}
