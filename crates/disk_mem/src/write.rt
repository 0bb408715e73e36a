//! A write to the three vectors with its record.
//! `MemDisk` alone calls it, and only here do its areas change.

ghost use Rattle.std.specs.Prelude.{◌≡◌, ◌++◌, ◌∷◌, [], false, IsTrue, IfOk, OnOk};
ghost use Rattle.disk_mem.specs.Replay.{Shows, change, after_write};
ghost use Rattle.disk_mem.specs.declared.call.Call.TheVariants.{Write};

use crate::areas::{Areas, overwrite};
use crate::call::{Call, record};
use std::alloc::{AllocError, Global};
use store_api::Area;

/// Makes a write, if it is to be done, and copies its bytes.
fn write_in(
    alloc: Global,
    areas: &mut Areas,
    area: Area,
    at: u64,
    bytes: &[u8],
    done: bool,
) -> Result<Vec<u8>, AllocError>
    ensures copy { IfOk result (λ copy. copy.items ≡ bytes.now) }
    ensures shows { (s : _) → Shows s areas.old → OnOk result (Shows (change area (after_write at bytes.now done) s) areas.new) }
{
    if done {
        match area {
            Area::Log => overwrite(&mut areas.log, at as usize, bytes)?,
            Area::Double => overwrite(&mut areas.double, at as usize, bytes)?,
            Area::Pages => overwrite(&mut areas.pages, at as usize, bytes)?,
        }
    }
    Vec::from_slice(alloc, bytes)
}

/// The same, and records it, where the calls before it are recorded.
pub fn record_write(
    alloc: Global,
    areas: &mut Areas,
    calls: &mut Vec<Call>,
    told: bool,
    area: Area,
    at: u64,
    bytes: &[u8],
    done: bool,
) -> bool
    ensures told { IsTrue result → IsTrue told }
    ensures recorded { IsTrue result → (v : _) × (v.items ≡ bytes.now) × (calls.new.items ≡ calls.old.items ++ Write area at v done ∷ []) }
    ensures shows { IsTrue result → (s : _) → Shows s areas.old → Shows (change area (after_write at bytes.now done) s) areas.new }
    ensures not { result ≡ false → calls.new.items ≡ calls.old.items }
{
    match write_in(alloc, areas, area, at, bytes, done) {
        Ok(copy) => record(calls, told, Call::Write(area, at, copy, done)),
        Err(_) => false,
    }
}
