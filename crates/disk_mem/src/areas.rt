//! The three vectors of a disk in memory, and how bytes are put into one and taken from it.
//! Only `MemDisk` holds them; `overwrite` alone changes their bytes.

ghost use Rattle.std.specs.Prelude.{◌≡◌, ◌≤◌, [], List, ℕ, length, take, drop, OnOk, true, Bool, IsTrue};
ghost use Rattle.store_api.specs.Areas.{write_of, overwritten, contents_of};

use std::alloc::{AllocError, Global};
use store_api::Area;

/// What a read gives.
#[derive(Drop)]
pub struct Areas {
    pub log: Vec<u8>,
    pub double: Vec<u8>,
    pub pages: Vec<u8>,
}

impl Areas {
    ghost use Rattle.disk_mem.specs.Replay.{HasAreas, Shows, empty_image};

    pub fn new(alloc: Global) -> Areas
        ensures { HasAreas empty_image result }
    {
        Areas {
            log: Vec::new(alloc),
            double: Vec::new(alloc),
            pages: Vec::new(alloc),
        }
    }

    pub fn bytes(&self, area: Area) -> &[u8]
        ensures { (s : _) → Shows s self.now → result.now ≡ (contents_of area s).seen }
    {
        match area {
            Area::Log => &self.log,
            Area::Double => &self.double,
            Area::Pages => &self.pages,
        }
    }
}

/// Writes over the bytes from `at` on and past their end, behind zeros where they are too few.
pub fn overwrite(bytes: &mut Vec<u8>, at: usize, with: &[u8]) -> Result<(), AllocError>
    ensures { OnOk result (bytes.new.items ≡ overwritten bytes.old.items (write_of bytes.old.items at with.now)) }
{
    if at < bytes.len() && with.len() < bytes.len() - at {
        bytes[at..at + with.len()].copy_from_slice(with);
        return Ok(());
    }
    bytes.resize(at, 0)?;
    bytes.extend_from_slice(with)
}

/// Copies the bytes from `at` on, and answers how many.
pub fn copy_from(bytes: &[u8], at: u64, into: &mut [u8]) -> usize
    ensures count { result ≤ length into.new }
    ensures bytes { take result into.new ≡ take (length into.new) (drop at bytes.now) }
{
    if at >= bytes.len() as u64 {
        return 0;
    }
    let rest = &bytes[at as usize..];
    let count = rest.len().min(into.len());
    into[..count].copy_from_slice(&rest[..count]);
    count
}
