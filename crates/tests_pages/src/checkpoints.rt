//! Mini-transactions change pages, a flusher brings them all to the disk, and a checkpoint ends the run, three times over. Whatever a
//! crash leaves at any moment is recovered: these are the pages after all groups that were flushed, by the old run or the new one.

use crate::file::disk_of;
use buffer_pool::Pool;
use disk_mem::{MemDisk, Pick};
use flusher::{Flusher, Worked};
use mini_txn::MiniTxn;
use mtr::{Mtr, capacity};
use page_checkpoint::{CheckpointBad, NewRun, begin_log, checkpoint};
use page_recovery::{Pages, recover};
use redo_log::Log;
use std::alloc::Global;
use std::test::Fail;
use store_api::{Disk, NoMemory};
use sum64::fnv;

/// How many pages the file may have, and how many of them are written at first.
const CAPACITY: u32 = 21;

const WRITTEN: u32 = 4;

/// The sums of the pages before the groups of a run and after each of them.
#[derive(Clone, Copy)]
struct Sums {
    before: u64,
    first: u64,
    second: u64,
    third: u64,
}

impl Sums {
    /// The sum after so many groups.
    fn at(self, count: usize) -> Option<u64> {
        match count {
            0 => Some(self.before),
            1 => Some(self.first),
            2 => Some(self.second),
            3 => Some(self.third),
            _ => None,
        }
    }
}

/// What was done by a moment: the run, its first LSN, the sums of the pages after each of its groups, and the moment.
#[derive(Clone, Copy)]
struct Run {
    numbers: NewRun,
    after: Sums,
    ended: u64,
}

/// The first pages are in the pool, fixed, if all of them can be read.
fn fix_first(alloc: Global, pool: &mut Pool, disk: &mut MemDisk) -> Result<bool, NoMemory> {
    for page in 0..WRITTEN {
        if page >= pool.pages() || pool.has_frame(page) {
            return Ok(false);
        }
        pool.add_frame(alloc, page)?;
        if pool.fixes(page) >= 8 || pool.fix(disk, page).is_err() {
            return Ok(false);
        }
    }
    Ok(true)
}

/// A group that puts the turn's number on a page, and on page 0 behind what it says of the run. It answers whether that was done.
fn put(m: &mut MiniTxn, turn: u8) -> bool {
    let page = 1 + u32::from(turn % 3);
    m.give_up();
    if m.bytes(page).is_err() || m.bytes(0).is_err() {
        return false;
    }
    if !capacity(m).is_ok_and(|capacity| capacity > page) {
        return false;
    }
    m.put(page, 100 + u16::from(turn), &[turn, turn]).is_ok()
        && m.put(0, 200, &[turn]).is_ok()
        && m.commit().is_ok()
}

/// Of page 0 what it says of the run is left out, as is each page's sum.
fn part(page: u32, bytes: &[u8]) -> &[u8] {
    bytes.get(if page == 0 { 64 } else { 8 }..).unwrap_or(&[])
}

/// One sum of the sums of the pages of the pool.
fn pooled(pool: &Pool) -> u64 {
    let mut sum = 0u64;
    for page in 0..WRITTEN {
        if pool.is_pooled(page) {
            sum = sum.rotate_left(7) ^ fnv(part(page, pool.bytes(page)));
        }
    }
    sum
}

/// The same of those that were recovered.
fn recovered(pages: &Pages) -> u64 {
    let mut sum = 0u64;
    for page in 0..WRITTEN {
        if let Some(bytes) = pages.bytes(page) {
            sum = sum.rotate_left(7) ^ fnv(part(page, bytes));
        }
    }
    sum
}

/// Three groups, one after the other, and the sums of the pages before the first and after each.
fn change_pages(
    alloc: Global,
    pool: Pool,
    log: Log,
    run: u8,
) -> Result<(Pool, Log, Sums), NoMemory> {
    let mut m = MiniTxn::new(alloc, pool, log)?;
    let before = pooled(m.pool());
    let first = changed(&mut m, 10 + run % 10);
    let second = changed(&mut m, 20 + run % 10);
    let third = changed(&mut m, 30 + run % 10);
    let sums = Sums {
        before,
        first,
        second,
        third,
    };
    let (pool, log) = m.into_parts();
    Ok((pool, log, sums))
}

/// The sum of the pages after a group, or 0 where it was refused.
fn changed(m: &mut MiniTxn, byte: u8) -> u64 {
    if put(m, byte) { pooled(m.pool()) } else { 0 }
}

/// Whether the flusher makes its steps until nothing is left.
fn flush_all(flusher: &mut Flusher, pool: &mut Pool, log: &mut Log, disk: &mut MemDisk) -> bool {
    for _ in 0..20 {
        match flusher.step(pool, log, disk) {
            Ok(Worked::Did) => {}
            Ok(Worked::Idle) => return true,
            Err(_) => return false,
        }
    }
    false
}

fn try_checkpoint(
    alloc: Global,
    pool: &mut Pool,
    log: &Log,
    disk: &mut MemDisk,
) -> Result<NewRun, CheckpointBad> {
    if !pool.is_pooled(0) || pool.fixes(0) == 0 {
        return Err(CheckpointBad::Dirty { page: 0 });
    }
    checkpoint(alloc, pool, log, disk)
}

/// The checkpoint, which is refused while something is left to be flushed.
fn end_run(
    alloc: Global,
    flusher: &mut Flusher,
    pool: &mut Pool,
    log: &mut Log,
    disk: &mut MemDisk,
) -> Option<NewRun> {
    let moment = disk.moment();
    let refused = try_checkpoint(alloc, pool, log, disk);
    if refused != Err(CheckpointBad::Dirty { page: 0 }) || disk.moment() != moment {
        return None;
    }
    if !flush_all(flusher, pool, log, disk) {
        return None;
    }
    try_checkpoint(alloc, pool, log, disk).ok()
}

/// The log of a new run, with which no checkpoint can be made, since it has no group.
fn new_log(alloc: Global, next: NewRun, pool: &mut Pool, disk: &mut MemDisk) -> Option<Log> {
    if pool.is_dirty(0) || next.first == 0 {
        return None;
    }
    let log = begin_log(alloc, next, disk).ok()?;
    let refused = try_checkpoint(alloc, pool, &log, disk);
    if refused != Err(CheckpointBad::NoGroups) {
        drop(log);
        return None;
    }
    Some(log)
}

/// The last byte of a run's number.
fn low_byte(run: u64) -> u8 {
    run.to_be_bytes()[7]
}

/// A run: three groups, which are flushed before the checkpoint that ends it. It answers its pages and the next run.
fn make_run(
    alloc: Global,
    flusher: &mut Flusher,
    pool: Pool,
    log: Log,
    run: u64,
    disk: &mut MemDisk,
) -> Result<Option<(Pool, Log, Sums, NewRun)>, NoMemory> {
    let (mut pool, mut log, after) = change_pages(alloc, pool, log, low_byte(run))?;
    let next = end_run(alloc, flusher, &mut pool, &mut log, disk);
    drop(log);
    let new = match next {
        Some(next) => new_log(alloc, next, &mut pool, disk).map(|log| (log, next)),
        None => None,
    };
    match new {
        Some((log, next)) => Ok(Some((pool, log, after, next))),
        None => {
            drop(pool);
            Ok(None)
        }
    }
}

/// Three runs, and a fourth without groups.
fn make_runs(
    alloc: Global,
    mut pool: Pool,
    disk: &mut MemDisk,
) -> Result<Option<[Run; 4]>, NoMemory> {
    let mut log = Log::packing(alloc, 1, 0, 1)?;
    let mut flusher = Flusher::new(alloc)?;
    let mut last = Run {
        numbers: NewRun { run: 1, first: 1 },
        after: Sums {
            before: 0,
            first: 0,
            second: 0,
            third: 0,
        },
        ended: u64::MAX,
    };
    let mut runs = [last; 4];
    for turn in 0..3 {
        match make_run(alloc, &mut flusher, pool, log, last.numbers.run, disk)? {
            Some((with, new, after, next)) => {
                pool = with;
                log = new;
                last.after = after;
                last.ended = disk.moment();
                runs[turn] = last;
                last.numbers = next;
            }
            None => return Ok(None),
        }
    }
    last.after.before = pooled(&pool);
    last.ended = u64::MAX;
    runs[3] = last;
    Ok(Some(runs))
}

fn work(alloc: Global, disk: &mut MemDisk) -> Result<Option<[Run; 4]>, NoMemory> {
    let mut pool = Pool::new(alloc, CAPACITY)?;
    if fix_first(alloc, &mut pool, disk)? {
        make_runs(alloc, pool, disk)
    } else {
        Ok(None)
    }
}

/// The run that recovery says, if it gives the pages after the groups of that run that it counts.
fn run_recovered(alloc: Global, disk: &mut MemDisk, runs: &[Run; 4]) -> Option<u64> {
    let Ok(found) = recover(alloc, disk) else {
        return None;
    };
    let (run, first, count) = (found.run, found.first, found.count);
    let sum = recovered(&found.pages);
    drop(found);
    let of_run = runs
        .iter()
        .find(|entry| entry.numbers == NewRun { run, first })?;
    if of_run.after.at(count) == Some(sum) {
        Some(run)
    } else {
        None
    }
}

/// Whether the image of a moment is recovered, to no earlier run than the one that had begun by then.
fn is_recovered(
    alloc: Global,
    disk: &MemDisk,
    moment: u64,
    pick: Pick,
    runs: &[Run; 4],
) -> Result<bool, NoMemory> {
    if moment > disk.moment() {
        return Ok(true);
    }
    let mut image = disk.image(moment, pick)?;
    let run = run_recovered(alloc, &mut image, runs);
    drop(image);
    let ended = runs.iter().filter(|entry| entry.ended <= moment).count();
    Ok(run.is_some_and(|run| run > ended as u64))
}

/// The first moment with an image that is not recovered so. The first pages are written and read by the first nine calls.
fn first_bad(alloc: Global, disk: &MemDisk, runs: &[Run; 4]) -> Result<Option<u64>, NoMemory> {
    for moment in 9..disk.moment().saturating_add(1) {
        for pick in [Pick::Lost, Pick::Kept, Pick::Torn] {
            if !is_recovered(alloc, disk, moment, pick, runs)? {
                return Ok(Some(moment));
            }
        }
    }
    Ok(None)
}

#[test]
fn each_image_recovers_by_one_run(rt: HostRuntime) -> Result<(), Fail> {
    let mut disk = disk_of(rt.alloc(), WRITTEN, CAPACITY)?;
    let runs = work(rt.alloc(), &mut disk)?.ok_or("no runs")?;
    let bad = first_bad(rt.alloc(), &disk, &runs);
    drop(disk);
    assert_eq!(rt; runs[3].numbers, NewRun { run: 4, first: 13 });
    assert!(rt;
        runs[2].after.third == runs[3].after.before && runs[2].after.second != runs[2].after.third
    );
    assert_eq!(rt; bad?, None);
    Ok(())
}
