//! Five pages are staged and placed, with each call of the disk failing in turn. Each image that a crash may leave is repaired:
//! every page is whole then, old or new.

use disk_mem::{MemDisk, Pick};
use doublewrite::{Batch, Staged, repair, stage};
use inno_types::Ids;
use page_format::Page;
use std::alloc::Global;
use std::test::Fail;
use store_api::{Area, Disk, Failed, NoMemory};
use sum64::fnv;

const PAGES: u8 = 5;

/// A page of the kind that has no records, sealed. Its LSN stands in its last byte too.
fn page_of(number: u8, lsn: u8) -> [u8; 4096] {
    let mut bytes = [0; 4096];
    bytes[11] = number;
    bytes[19] = lsn;
    bytes[20] = 1;
    bytes[4095] = lsn;
    let sum = fnv(&bytes[8..]);
    bytes[..8].copy_from_slice(&sum.to_be_bytes());
    bytes
}

fn new_pages(alloc: Global) -> Result<Batch, NoMemory> {
    let mut batch = Batch::new(alloc)?;
    for number in 0..PAGES {
        if let Ok(page) = Page::read(&page_of(number, 2), u32::from(number)) {
            if batch.len() < 64 && !batch.contains(page.number()) {
                batch.add(&page);
            }
        }
    }
    Ok(batch)
}

/// The old pages are in their places, and synced.
fn place_old(disk: &mut MemDisk) -> Result<(), Failed> {
    for number in 0..PAGES {
        disk.write(Area::Pages, 4096 * u64::from(number), &page_of(number, 1))?;
    }
    disk.sync(Area::Pages)
}

fn place_all(disk: &mut MemDisk, mut staged: Staged) -> bool {
    for _ in 0..64 {
        if staged.left() > 0 && staged.place_next(disk).is_err() {
            return false;
        }
    }
    drop(staged.done());
    true
}

/// Whether the new pages were staged and placed.
fn place_new(alloc: Global, disk: &mut MemDisk) -> Result<bool, NoMemory> {
    let batch = new_pages(alloc)?;
    if batch.len() == 0 {
        return Ok(false);
    }
    match stage(disk, batch) {
        Ok(staged) => Ok(place_all(disk, staged)),
        Err(_) => Ok(false),
    }
}

/// Whether each page is whole in its place, old or new.
fn are_whole(disk: &mut MemDisk) -> Result<bool, Failed> {
    for number in 0..PAGES {
        let mut bytes = [0; 4096];
        disk.read(Area::Pages, 4096 * u64::from(number), &mut bytes)?;
        let is_whole = Page::read(&bytes, u32::from(number)).is_ok();
        if !is_whole || (bytes[4095] != 1 && bytes[4095] != 2) {
            return Ok(false);
        }
    }
    Ok(true)
}

/// Whether they are once the image of a moment is repaired.
fn is_repaired(alloc: Global, disk: &MemDisk, moment: u64, pick: Pick) -> Result<bool, NoMemory> {
    if moment > disk.moment() {
        return Ok(true);
    }
    let mut image = disk.image(moment, pick)?;
    let is_repaired = repair(alloc, &mut image).is_ok();
    let are_whole = are_whole(&mut image);
    drop(image);
    Ok(is_repaired && are_whole == Ok(true))
}

/// The first moment whose image is not repaired, from the seventh on.
fn first_bad(alloc: Global, disk: &MemDisk) -> Result<Option<u64>, NoMemory> {
    for moment in 7..15 {
        for pick in [Pick::Lost, Pick::Kept, Pick::Torn] {
            if !is_repaired(alloc, disk, moment, pick)? {
                return Ok(Some(moment));
            }
        }
    }
    Ok(None)
}

/// Whether new pages are placed over old ones on a disk whose call of this number fails, and the first moment whose image is not
/// repaired. The old pages are written by the first six calls, and the new ones by the eight behind them.
fn placed(alloc: Global, fails: u64) -> Result<(bool, Option<u64>), Fail> {
    let mut disk = MemDisk::new(alloc, Ids::from_vec(vec![in alloc; fails]?))?;
    let old = place_old(&mut disk);
    let placed = place_new(alloc, &mut disk);
    let bad = first_bad(alloc, &disk);
    drop(disk);
    old?;
    Ok((placed?, bad?))
}

#[test]
fn each_page_is_old_or_new(rt: HostRuntime) -> Result<(), Fail> {
    assert_eq!(rt; placed(rt.alloc(), 0)?, (true, None));
    for fails in 7..15 {
        assert_eq!(rt; placed(rt.alloc(), fails)?, (false, None), "call {fails}");
    }
    Ok(())
}
