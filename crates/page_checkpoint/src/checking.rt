//! Whether a checkpoint may be made: nothing is changed in the pool, all groups are flushed, and there are some.
//! Nothing here meets the disk.

ghost use Rattle.std.specs.Prelude.{◌≡◌, ◌⊎◌, ◌+◌, ◌^◌, ◌≤◌, ℕ, IsTrue, MatchOption, IfOk, IfErr, true, false};
ghost use Rattle.buffer_pool.specs.Frames.{is_pooled, is_dirty};
ghost use Rattle.page_checkpoint.specs.Beginning.{IsNextRun, IsCause, IsNoFault};
ghost use Rattle.page_checkpoint.specs.declared.checking.CheckpointBad.TheVariants.{NoNumbers};

use buffer_pool::Pool;
use redo_log::Log;
use stored_pages::layout::{FIRST_LSN, RUN};
use stored_pages::read_u64;

/// A run without groups: its number, and the LSN of its first group.
#[derive(Clone, Copy, Debug, PartialEq, Eq)]
pub struct NewRun {
    pub run: u64,
    pub first: u64,
}

/// Why no checkpoint is made.
#[derive(Clone, Copy, Debug, PartialEq, Eq)]
pub enum CheckpointBad {
    /// This page is changed in the pool.
    Dirty { page: u32 },
    /// Some groups of the log are not flushed.
    NotFlushed,
    /// The log has no group, so that there is nothing to be done.
    NoGroups,
    /// There is no number for another run, or no LSN.
    NoNumbers,
    NoMemory,
    /// The disk failed.
    Failed,
}

/// The first changed page.
fn first_dirty(pool: &Pool) -> Option<u32>
    ensures { MatchOption result ((page : ℕ) → is_dirty pool.now page ≡ false) (λ page. is_dirty pool.now page ≡ true) }
{
    let mut page = 0;
    while page < pool.pages() {
        if pool.is_dirty(page) {
            return Some(page);
        }
        page += 1;
    }
    None
}

/// The run after that of page 0.
fn numbers_after(run: u64, last: u64) -> Result<NewRun, CheckpointBad>
    ensures ok { IfOk result (λ next. (next.run ≡ run + 1) × (next.first ≡ last + 2)) }
    ensures bad { IfErr result (λ why. (why ≡ NoNumbers) × ((2 ^ 64 ≤ run + 1) ⊎ (2 ^ 64 ≤ last + 2))) }
{
    match (run.checked_add(1), last.checked_add(2)) {
        (Some(run), Some(first)) => Ok(NewRun { run, first }),
        _ => Err(CheckpointBad::NoNumbers),
    }
}

/// The run that may begin now.
pub fn next_run(pool: &Pool, log: &Log) -> Result<NewRun, CheckpointBad>
    requires { IsTrue (is_pooled pool.now 0) }
    ensures ok { IfOk result (IsNextRun pool.now log.now) }
    ensures bad { IfErr result (IsCause pool.now log.now) }
    ensures failed { IfErr result IsNoFault }
{
    if let Some(page) = first_dirty(pool) {
        return Err(CheckpointBad::Dirty { page });
    }
    if log.flushed() != log.last() {
        return Err(CheckpointBad::NotFlushed);
    }
    let page = pool.bytes(0);
    if log.last() < read_u64(page, FIRST_LSN) {
        return Err(CheckpointBad::NoGroups);
    }
    numbers_after(read_u64(page, RUN), log.last())
}
