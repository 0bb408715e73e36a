//! A file of pages on a disk in memory, of which the first ones are written.
//! No test stands here; `checkpoints` and `many_pages` begin with it.

use disk_mem::MemDisk;
use inno_types::Ids;
use std::alloc::Global;
use store_api::{Area, Disk, Failed, NoMemory};
use sum64::fnv;

/// A sealed page without records. Page 0 says version 1, the number of pages, run 1 and the first LSN 1.
fn page_of(number: u32, capacity: u32) -> [u8; 4096] {
    let mut bytes = [0; 4096];
    bytes[8..12].copy_from_slice(&number.to_be_bytes());
    bytes[20] = if number == 0 { 1 } else { 5 };
    bytes[44..48].copy_from_slice(&capacity.to_be_bytes());
    if number == 0 {
        bytes[32..40].copy_from_slice(b"INNODPRF");
        bytes[43] = 1;
        bytes[55] = 1;
        bytes[63] = 1;
    }
    let sum = fnv(&bytes[8..]);
    bytes[..8].copy_from_slice(&sum.to_be_bytes());
    bytes
}

fn write_first(disk: &mut MemDisk, written: u32, capacity: u32) -> Result<(), Failed> {
    for number in 0..written {
        let at = 4096 * u64::from(number);
        disk.write(Area::Pages, at, &page_of(number, capacity))?;
    }
    disk.sync(Area::Pages)
}

/// A disk for a file of so many pages, on which the first ones are written, and synced.
pub fn disk_of(alloc: Global, written: u32, capacity: u32) -> Result<MemDisk, NoMemory> {
    let mut disk = MemDisk::new(alloc, Ids::new(alloc))?;
    let _ = write_first(&mut disk, written, capacity);
    Ok(disk)
}
