//! Each of 40 pages is made over 8 frames, while a flusher makes room. Whatever a crash leaves at any moment is recovered: these are
//! the pages after the groups that are whole there.

use crate::file::disk_of;
use disk_mem::{MemDisk, Pick};
use flusher::Worked;
use mtr::{Mtr, capacity, u32_on};
use page_recovery::{Pages, recover};
use paged_txn::{PagedTxn, Room};
use redo_log::Log;
use std::alloc::Global;
use std::test::Fail;
use store_api::{Disk, FreshBad, NoMemory};

/// How many pages the file may have.
const PAGES: u32 = 40;

/// How many of them are in memory at most.
const FRAMES: u32 = 8;

/// Mini-transactions over a disk.
fn begin(alloc: Global, disk: MemDisk) -> Result<PagedTxn<MemDisk>, NoMemory> {
    let log = Log::packing(alloc, 1, 0, 1);
    let room = Room::new(alloc, PAGES, FRAMES);
    match (log, room) {
        (Ok(log), Ok(room)) => Ok(PagedTxn::new(room, log, disk)),
        (log, room) => {
            drop(log);
            drop(room);
            drop(disk);
            Err(NoMemory)
        }
    }
}

/// Makes a page with its number at byte 100.
#[tactic(auto, using(mtr::proofs::Claims::visited_now, mtr::proofs::Claims::visited_stays))]
fn make(m: &mut PagedTxn<MemDisk>, page: u32) -> Result<(), FreshBad> {
    m.give_up();
    if !capacity(m).is_ok_and(|capacity| capacity > page) {
        return Err(FreshBad::NoMemory);
    }
    if let Err(why) = m.fresh(page) {
        m.give_up();
        return Err(why);
    }
    if capacity(m).is_ok_and(|capacity| capacity > page) {
        let _ = m.put(page, 100, &page.to_be_bytes());
    }
    match m.commit() {
        Ok(()) => Ok(()),
        Err(NoMemory) => Err(FreshBad::NoMemory),
    }
}

/// Whether the flusher makes its steps until nothing is left.
fn flush_all(m: &mut PagedTxn<MemDisk>) -> bool {
    for _ in 0..100 {
        match m.flush_step() {
            Ok(Worked::Did) => {}
            Ok(Worked::Idle) => return true,
            Err(_) => return false,
        }
    }
    false
}

/// Makes each page behind page 0; where all frames are dirty, once the flusher is done. It answers how often that was so, unless a
/// page could not be made.
fn make_all(m: &mut PagedTxn<MemDisk>) -> Option<u32> {
    let mut waits = 0u32;
    for page in 1..PAGES {
        match make(m, page) {
            Ok(()) => {}
            Err(FreshBad::Again) => {
                waits = waits.saturating_add(1);
                if !flush_all(m) || make(m, page).is_err() {
                    return None;
                }
            }
            Err(FreshBad::NoMemory) => return None,
        }
    }
    if flush_all(m) { Some(waits) } else { None }
}

/// Whether a mini-transaction sees on each page what was put there.
fn sees_all(m: &mut PagedTxn<MemDisk>) -> bool {
    for page in 1..PAGES {
        m.give_up();
        if u32_on(m, page, 100) != Ok(page) {
            return false;
        }
    }
    true
}

/// How often a page had to wait, the moment at which all was flushed, whether all is seen then, and how many frames have a page.
fn all_done(m: &mut PagedTxn<MemDisk>) -> (Option<u32>, u64, bool, usize) {
    let waits = make_all(m);
    let moment = m.disk().moment();
    let sees = sees_all(m);
    m.give_up();
    let pool = m.pool();
    let pooled = (0..PAGES).filter(|page| pool.is_pooled(*page)).count();
    (waits, moment, sees, pooled)
}

/// Whether the page is as the groups up to this number leave it.
fn is_after(bytes: Option<&[u8]>, page: u32, groups: usize) -> bool {
    let number = match bytes.and_then(|bytes| bytes.get(100..104)) {
        Some([a, b, c, d]) => u32::from_be_bytes([*a, *b, *c, *d]),
        _ => 0,
    };
    number == if page as usize <= groups { page } else { 0 }
}

fn are_after(pages: &Pages, groups: usize) -> bool {
    (1..PAGES).all(|page| is_after(pages.bytes(page), page, groups))
}

/// How many groups recovery counts, if the pages are those after them.
fn recovered(alloc: Global, disk: &mut MemDisk) -> Option<usize> {
    match recover(alloc, disk) {
        Ok(found) => {
            let (run, first, count) = (found.run, found.first, found.count);
            let are_after = are_after(&found.pages, count);
            drop(found);
            if are_after && (run, first) == (1, 1) {
                Some(count)
            } else {
                None
            }
        }
        Err(_) => None,
    }
}

/// How many groups are recovered of the image of a moment.
fn image_recovered(
    alloc: Global,
    disk: &MemDisk,
    moment: u64,
    pick: Pick,
) -> Result<Option<usize>, NoMemory> {
    if moment > disk.moment() {
        return Ok(None);
    }
    let mut image = disk.image(moment, pick)?;
    let count = recovered(alloc, &mut image);
    drop(image);
    Ok(count)
}

/// The greatest number of groups that is recovered of the images of each seventh moment, and the first of those that is not recovered.
/// The first page is written by the first two calls.
fn images_recovered(alloc: Global, disk: &MemDisk) -> Result<(usize, Option<u64>), NoMemory> {
    let mut most = 0;
    for step in 0..20 {
        let moment = 2 + 7 * step;
        if moment > disk.moment() {
            return Ok((most, None));
        }
        for pick in [Pick::Lost, Pick::Kept, Pick::Torn] {
            match image_recovered(alloc, disk, moment, pick)? {
                Some(count) => most = most.max(count),
                None => return Ok((most, Some(moment))),
            }
        }
    }
    Ok((most, None))
}

/// What was done, what is recovered of the images, and of what stands at last.
fn done_and_recovered(
    alloc: Global,
) -> Result<
    (
        (Option<u32>, u64, bool, usize),
        (usize, Option<u64>),
        Option<usize>,
    ),
    NoMemory,
> {
    let mut m = begin(alloc, disk_of(alloc, 1, PAGES)?)?;
    let done = all_done(&mut m);
    let mut disk = m.into_disk();
    let images = images_recovered(alloc, &disk);
    let last = recovered(alloc, &mut disk);
    drop(disk);
    Ok((done, images?, last))
}

#[test]
fn each_image_recovers(rt: HostRuntime) -> Result<(), Fail> {
    let ((waits, moment, sees, pooled), (most, bad), last) = done_and_recovered(rt.alloc())?;
    assert!(rt; waits.is_some_and(|waits| waits > 3));
    assert!(rt; moment < 140 && sees);
    assert_eq!(rt; pooled, FRAMES as usize);
    assert!(rt; most > 20 && bad.is_none());
    assert_eq!(rt; last, Some(PAGES as usize - 1));
    Ok(())
}
