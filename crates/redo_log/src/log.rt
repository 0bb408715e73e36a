//! The log as it is in memory, with what it stands for together with the log area of a disk.
//! Commits and mini-transactions append to it; its flush alone, whole or by halves, hands their bytes to the disk.

ghost use Rattle.std.specs.Prelude.{◌≡◌, ◌+◌, ◌-◌, ◌*◌, ◌^◌, ◌<◌, ◌≤◌, ◌∷◌, [], ◌++◌, ℕ, List, length, take, replicate, min, IsOk, OnOk, OnErr, IfOk};
ghost use Rattle.store_api.specs.Areas.{Contents};
ghost use Rattle.store_api.specs.Causes.{HasCause};
ghost use Rattle.store_api.specs.Past.{Now, Meanwhile};
ghost use Rattle.log_format.specs.declared.block.TheConstants.{BLOCK};
ghost use Rattle.log_format.specs.Group.{AreRecords, IsSpelled};
ghost use Rattle.log_format.specs.declared.group.Record.{Record as RecordValue};
ghost use Rattle.log_format.specs.declared.group.Group.{Group as GroupValue};
ghost use Rattle.log_format.specs.Scan.{IsScan, EndsAt};
ghost use Rattle.redo_log.specs.Bodies.{IsOf};
ghost use Rattle.redo_log.specs.Elsewhere.{LeavesBeside};
ghost use Rattle.redo_log.specs.Halves.{WrittenView, IsFront, IsWritten, StandsWritten};
ghost use Rattle.redo_log.specs.View.{LogView, Stay, all_tried, room_of, numbers_left};
ghost use Rattle.redo_log.specs.Logged.{GoesOnAt, IsLogged, LeavesPrefix, Stands, StandsMeanwhile};

use crate::body::{Body, put_behind};
use crate::room::{drop_front, numbers_from, widened};
use crate::written::Written;
use log_format::{Group, put_both_as_blocks};
use std::alloc::Global;
use std::marker::Model;
use store_api::{Area, Disk, Failed, NoMemory};

/// How much may be appended to a new log without memory.
const FIRST_SPARE: usize = 1_048_576;

/// How the groups of a log lie in its blocks.
#[derive(Clone, Copy)]
enum Packing {
    /// Each group begins a new block.
    Apart,
    /// A group goes on in the last block that waits, unless a write has tried it.
    Together,
}

/// The log as it is in memory.
#[derive(Drop)]
pub struct Log {
    packing: Packing,
    run: u64,
    block: u64,
    /// The blocks that wait for a flush, and how many they are.
    pending: Vec<u8>,
    count: u64,
    /// How many of them a write has tried. They stay as they are, since the disk may hold them.
    tried: u64,
    next: u64,
    flushed: u64,
    /// What is spelled anew of an append, before it stands in blocks.
    work: Vec<u8>,
    /// So much may wait without memory.
    room: usize,
}

impl Model for Log {
    ghost use Rattle.std.specs.Prelude.{◌+◌, length, vec_capacity};
    ghost use Rattle.redo_log.specs.Bodies.{IsOf};
    ghost use Rattle.redo_log.specs.View.{LogView, IsBounded, spare_of};

    ghost Value = { LogView };

    ghost invariant = { λ l. IsBounded l.run l.block l.count l.tried l.next l.flushed l.room (length l.pending.items) (vec_capacity l.pending) (vec_capacity l.work) };

    ghost view = { λ l. record { run = l.run; block = l.block; pending = l.pending.items; count = l.count; tried = l.tried; next = l.next; flushed = l.flushed; spare = spare_of l.room (length l.pending.items) (l.block + l.count) l.next } };
}

impl Log {
    /// A log whose groups go on at this block and with this LSN, each in blocks of its own: a mount that goes on in the same run
    /// needs that groups end with a block. Where the numbers end within its first spare, it answers as if there were no memory for it.
    pub fn new(alloc: Global, run: u64, block: u64, first: u64) -> Result<Log, NoMemory>
        requires { 0 < first }
        ensures log { IfOk result (λ log. log ≡ record { run = run; block = block; pending = []; count = 0; tried = 0; next = first; flushed = first - 1; spare = 1048576 }) }

        // It goes on where a scan of the log area ended, if nothing that a scan would take stands from there on.
        ensures stands { IfOk result (λ log. (scan_first : ℕ) (groups : List GroupValue) (c : Contents) → first ≡ scan_first + length groups
            → GoesOnAt run scan_first block groups c → IsLogged scan_first groups log c) }
    {
        Log::with_packing(alloc, run, block, first, Packing::Apart)
    }

    /// As `new`, but the groups that are appended before one flush lie together: each begins where the one before has ended,
    /// unless a write has tried that block.
    pub fn packing(alloc: Global, run: u64, block: u64, first: u64) -> Result<Log, NoMemory>
        requires { 0 < first }
        ensures log { IfOk result (λ log. log ≡ record { run = run; block = block; pending = []; count = 0; tried = 0; next = first; flushed = first - 1; spare = 1048576 }) }
        ensures stands { IfOk result (λ log. (scan_first : ℕ) (groups : List GroupValue) (c : Contents) → first ≡ scan_first + length groups
            → GoesOnAt run scan_first block groups c → IsLogged scan_first groups log c) }
    {
        Log::with_packing(alloc, run, block, first, Packing::Together)
    }

    fn with_packing(
        alloc: Global,
        run: u64,
        block: u64,
        first: u64,
        packing: Packing,
    ) -> Result<Log, NoMemory>
        requires { 0 < first }
        ensures log { IfOk result (λ log. log ≡ record { run = run; block = block; pending = []; count = 0; tried = 0; next = first; flushed = first - 1; spare = 1048576 }) }
        ensures stands { IfOk result (λ log. (scan_first : ℕ) (groups : List GroupValue) (c : Contents) → first ≡ scan_first + length groups
            → GoesOnAt run scan_first block groups c → IsLogged scan_first groups log c) }
    {
        if block > 1 << 53 || first > u64::MAX - 2048 {
            return Err(NoMemory);
        }
        Ok(Log {
            packing,
            run,
            block,
            pending: Vec::with_capacity(alloc, FIRST_SPARE)?,
            count: 0,
            tried: 0,
            next: first,
            flushed: first - 1,
            work: Vec::with_capacity(alloc, FIRST_SPARE)?,
            room: FIRST_SPARE,
        })
    }

    /// The LSN of the last group that is on the disk for good.
    pub fn flushed(&self) -> u64
        ensures { result ≡ self.now.flushed }
    {
        self.flushed
    }

    /// The LSN of the last group that was appended. Once it is flushed, all that were appended so far are.
    pub fn last(&self) -> u64
        ensures { result + 1 ≡ self.now.next }
    {
        self.next - 1
    }

    /// Makes the spare at least so large.
    pub fn reserve(&mut self, bytes: u32) -> Result<(), NoMemory>
        ensures ok { OnOk result (bytes ≤ self.new.spare) }
        ensures kept { self.old.spare ≤ self.new.spare }
        ensures same { record self.new { spare = self.old.spare } ≡ self.old }
        ensures enough { bytes ≤ self.old.spare → IsOk result }
        ensures err { OnErr result (self.new ≡ self.old) }
    {
        if numbers_from(self.block + self.count, self.next) < u64::from(bytes) {
            return Err(NoMemory);
        }
        let want = self.pending.len() + bytes as usize;
        self.room = widened(&mut self.pending, &mut self.work, self.room, want)?;
        Ok(())
    }

    /// Takes a group, which gets the next LSN in place of its own.
    pub fn append(&mut self, group: &Group) -> Result<u64, NoMemory>
        requires { AreRecords group.now.records }
        ensures lsn { IfOk result (λ lsn. lsn ≡ self.old.next) }
        ensures run { self.new.run ≡ self.old.run }
        ensures flushed { self.new.flushed ≡ self.old.flushed }
        ensures next { OnOk result (self.new.next ≡ self.old.next + 1) }
        ensures ok { OnOk result ((first : ℕ) (groups : List GroupValue) (c : Contents) → IsLogged first groups self.old c
            → IsLogged first (groups ++ record { lsn = self.old.next; records = group.now.records } ∷ []) self.new c) }

        // It leaves a write that waits for its sync as it is.
        ensures front { (w : WrittenView) → IsFront w self.old → IsFront w self.new }
        ensures written { OnOk result ((first : ℕ) (groups : List GroupValue) (w : WrittenView) (c : Contents) → IsWritten first groups w self.old c
            → IsWritten first (groups ++ record { lsn = self.old.next; records = group.now.records } ∷ []) w self.new c) }

        // It is never refused where the spare suffices.
        ensures suffices { room_of group.now.records ≤ self.old.spare → IsOk result }
        ensures spare { OnOk result (self.old.spare ≤ self.new.spare + room_of group.now.records) }
        ensures err { OnErr result (self.new ≡ self.old) }
    {
        self.append_body(Body::Records(&group.records))
    }

    /// Takes a group whose records are spelled already, so many one behind the other. As `append` it gives the group the
    /// next LSN.
    pub fn append_spelled(&mut self, count: u16, records: &[u8]) -> Result<u64, NoMemory>
        requires { (rs : List RecordValue) × IsSpelled rs count records.now }
        ensures lsn { IfOk result (λ lsn. lsn ≡ self.old.next) }
        ensures run { self.new.run ≡ self.old.run }
        ensures flushed { self.new.flushed ≡ self.old.flushed }
        ensures next { OnOk result (self.new.next ≡ self.old.next + 1) }
        ensures ok { OnOk result ((rs : List RecordValue) → IsSpelled rs count records.now
            → (first : ℕ) (groups : List GroupValue) (c : Contents) → IsLogged first groups self.old c
            → IsLogged first (groups ++ record { lsn = self.old.next; records = rs } ∷ []) self.new c) }

        // It leaves a write that waits for its sync as it is.
        ensures front { (w : WrittenView) → IsFront w self.old → IsFront w self.new }
        ensures written { OnOk result ((rs : List RecordValue) → IsSpelled rs count records.now
            → (first : ℕ) (groups : List GroupValue) (w : WrittenView) (c : Contents) → IsWritten first groups w self.old c
            → IsWritten first (groups ++ record { lsn = self.old.next; records = rs } ∷ []) w self.new c) }

        // It is never refused where the spare suffices.
        ensures suffices { (rs : List RecordValue) → IsSpelled rs count records.now → room_of rs ≤ self.old.spare → IsOk result }
        ensures spare { OnOk result ((rs : List RecordValue) → IsSpelled rs count records.now → self.old.spare ≤ self.new.spare + room_of rs) }
        ensures err { OnErr result (self.new ≡ self.old) }
    {
        self.append_body(Body::Spelled(count, records))
    }

    /// Takes a group, which gets the next LSN, as `append` and `append_spelled` do.
    fn append_body(&mut self, body: Body<'_>) -> Result<u64, NoMemory>
        requires { (rs : List RecordValue) × IsOf rs body }
        ensures lsn { IfOk result (λ lsn. lsn ≡ self.old.next) }
        ensures run { self.new.run ≡ self.old.run }
        ensures flushed { self.new.flushed ≡ self.old.flushed }
        ensures next { OnOk result (self.new.next ≡ self.old.next + 1) }
        ensures ok { OnOk result ((rs : List RecordValue) → IsOf rs body.entry
            → (first : ℕ) (groups : List GroupValue) (c : Contents) → IsLogged first groups self.old c
            → IsLogged first (groups ++ record { lsn = self.old.next; records = rs } ∷ []) self.new c) }
        ensures front { (w : WrittenView) → IsFront w self.old → IsFront w self.new }
        ensures written { OnOk result ((rs : List RecordValue) → IsOf rs body.entry
            → (first : ℕ) (groups : List GroupValue) (w : WrittenView) (c : Contents) → IsWritten first groups w self.old c
            → IsWritten first (groups ++ record { lsn = self.old.next; records = rs } ∷ []) w self.new c) }
        ensures suffices { (rs : List RecordValue) → IsOf rs body.entry → room_of rs ≤ self.old.spare → IsOk result }
        ensures spare { OnOk result ((rs : List RecordValue) → IsOf rs body.entry → self.old.spare ≤ self.new.spare + room_of rs) }
        ensures err { OnErr result (self.new ≡ self.old) }
    {
        let kept = self.kept();
        let end = 512 * kept as usize;
        let rest = put_behind(&self.pending[end..], self.next, body, &mut self.work)?;
        let want = end + 512 * ((self.work.len() + rest.len() + 483) / 484);
        let more = want - self.pending.len();
        if numbers_from(self.block + self.count, self.next) < more.max(512) as u64 {
            return Err(NoMemory);
        }
        self.room = widened(&mut self.pending, &mut self.work, self.room, want)?;
        self.pending.truncate(end);
        let count = put_both_as_blocks(
            self.run,
            self.block + kept,
            &self.work,
            rest,
            &mut self.pending,
        );
        self.count = kept + count;
        self.next += 1;
        Ok(self.next - 1)
    }

    /// How many of the blocks that wait stay where a group is appended. The group goes on in the one behind them, if there is
    /// one; where that is full, it becomes what it was.
    fn kept(&self) -> u64
        ensures { Stay result self.now }
    {
        match self.packing {
            Packing::Apart => self.count,
            Packing::Together => self.tried.max(self.count.saturating_sub(1)),
        }
    }

    /// The first half of a flush: writes all blocks that wait, in one write. Groups may be appended and other areas called
    /// before the second half; none of it counts as flushed until then. The blocks stay as they are from then on, also where the
    /// write failed.
    pub fn begin_flush<D: Disk>(&mut self, disk: &mut D) -> Result<Written, Failed>
        ensures log { self.new ≡ all_tried self.old }
        ensures front { IfOk result (λ w. IsFront w self.new) }
        ensures all { IfOk result (λ w. w.last + 1 ≡ self.new.next) }
        ensures cause { HasCause (D.past disk.old).faults (D.past disk.new).faults result }
        ensures elsewhere { LeavesBeside (D.past disk.old) (D.past disk.new) }

        // The log and the disk stand for the same groups as before, and where nothing failed a sync is all that is missing.
        ensures stands { (first : ℕ) (groups : List GroupValue) (double pages : Contents) →
            Now (Stands first groups self.old double pages) (D.past disk.old) → Now (Stands first groups self.new double pages) (D.past disk.new) }
        ensures written { IfOk result (λ w. (first : ℕ) (groups : List GroupValue) (double pages : Contents) →
            Now (Stands first groups self.old double pages) (D.past disk.old) →
            Now (StandsWritten first groups w self.new double pages) (D.past disk.new)) }
        ensures crash { (first : ℕ) (groups : List GroupValue) (double pages : Contents) →
            Now (Stands first groups self.old double pages) (D.past disk.old) →
            Meanwhile (StandsMeanwhile self.old.run first groups self.old.flushed double pages) (D.past disk.old) (D.past disk.new) }
    {
        self.tried = self.count;
        disk.write(Area::Log, 512 * self.block, &self.pending)?;
        Ok(Written {
            block: self.block,
            count: self.count,
            last: self.next - 1,
        })
    }

    /// The second half of a flush: syncs, and then the groups of the write are flushed, those that were appended since are not.
    pub fn end_flush<D: Disk>(&mut self, written: Written, disk: &mut D) -> Result<(), Failed>
        requires { IsFront written self.old }
        ensures run { self.new.run ≡ self.old.run }
        ensures next { self.new.next ≡ self.old.next }
        ensures later { self.old.flushed ≤ self.new.flushed }
        ensures flushed { OnOk result (self.new.flushed ≡ written.last) }
        ensures err { OnErr result (self.new ≡ self.old) }

        // The spare gets no smaller. What was flushed is given back to the spare, as far as numbers are left.
        ensures spare { OnOk result (min (self.old.spare + BLOCK * written.count) (numbers_left (self.old.block + self.old.count) self.old.next) ≤ self.new.spare) }
        ensures kept { self.old.spare ≤ self.new.spare }
        ensures cause { HasCause (D.past disk.old).faults (D.past disk.new).faults result }
        ensures elsewhere { LeavesBeside (D.past disk.old) (D.past disk.new) }

        // The log and the disk stand for the same groups as before. After a failure the write counts as none.
        ensures stands { (first : ℕ) (groups : List GroupValue) (double pages : Contents) →
            Now (StandsWritten first groups written self.old double pages) (D.past disk.old) →
            Now (Stands first groups self.new double pages) (D.past disk.new) }
        ensures crash { (first : ℕ) (groups : List GroupValue) (double pages : Contents) →
            Now (StandsWritten first groups written self.old double pages) (D.past disk.old) →
            Meanwhile (StandsMeanwhile self.old.run first groups self.old.flushed double pages) (D.past disk.old) (D.past disk.new) }
    {
        disk.sync(Area::Log)?;
        drop_front(&mut self.pending, 512 * written.count as usize);
        self.block += written.count;
        self.count -= written.count;
        self.tried -= written.count;
        self.flushed = written.last;
        Ok(())
    }

    /// Brings all groups onto the disk, in one write and a sync. After a failure the next flush writes the same
    /// blocks again, as they are, and then new ones, so that each place only ever has one block that counts.
    pub fn flush<D: Disk>(&mut self, disk: &mut D) -> Result<(), Failed>
        ensures run { self.new.run ≡ self.old.run }
        ensures next { self.new.next ≡ self.old.next }
        ensures later { self.old.flushed ≤ self.new.flushed }
        ensures flushed { OnOk result (self.new.flushed + 1 ≡ self.old.next) }
        ensures err { OnErr result (self.new ≡ all_tried self.old) }

        // The spare gets no smaller. What was flushed is given back to the spare, as far as numbers are left.
        ensures spare { OnOk result (min (self.old.spare + length self.old.pending) (numbers_left (self.old.block + self.old.count) self.old.next) ≤ self.new.spare) }
        ensures kept { self.old.spare ≤ self.new.spare }
        ensures cause { HasCause (D.past disk.old).faults (D.past disk.new).faults result }

        // Pages and their copies stand as before at each moment, whatever the log and its area stand for.
        ensures elsewhere { LeavesBeside (D.past disk.old) (D.past disk.new) }

        // The log and the disk stand for the same groups as before,
        ensures stands { (first : ℕ) (groups : List GroupValue) (double pages : Contents) →
            Now (Stands first groups self.old double pages) (D.past disk.old) → Now (Stands first groups self.new double pages) (D.past disk.new) }

        // and at each moment of the call a crash leaves those that were flushed, and a prefix of the others.
        ensures crash { (first : ℕ) (groups : List GroupValue) (double pages : Contents) →
            Now (Stands first groups self.old double pages) (D.past disk.old) →
            Meanwhile (StandsMeanwhile self.old.run first groups self.old.flushed double pages) (D.past disk.old) (D.past disk.new) }
    {
        if self.flushed + 1 == self.next {
            return Ok(());
        }
        let written = self.begin_flush(disk)?;
        self.end_flush(written, disk)
    }
}

/// What a log and a log area stand for together is what a crash leaves of it.
pub fn stands_for_what_is_left()
    ensures { (first : ℕ) (groups : List GroupValue) (log : LogView) (c : Contents) → IsLogged first groups log c → LeavesPrefix log.run first groups log.flushed c }
{}

/// A log goes on behind the groups of a scan, where zeros were written from there to the end and synced.
pub fn goes_on_before_zeros()
    ensures { (run first blocks : ℕ) (groups : List GroupValue) (area : List ℕ) (c : Contents) → IsScan run first area groups → EndsAt run blocks area groups
        → c.writes ≡ [] → c.synced ≡ take (BLOCK * blocks) area ++ replicate (length area - BLOCK * blocks) 0 → GoesOnAt run first blocks groups c }
{}
