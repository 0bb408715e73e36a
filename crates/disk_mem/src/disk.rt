//! The disk in memory: three vectors, the calls that are to fail, and the record of all its calls.
//! Only tests make one. It meets no file.

ghost use Rattle.std.specs.Prelude.{◌≡◌, ◌-◌, ◌^◌, ◌<◌, ◌≤◌, ◌↔◌, [], Some, IfOk, OnOk, IsTrue, is_ok, length, take, drop, vec_len};
ghost use Rattle.store_api.specs.Areas.{State, IsImage, contents_of, Within, Looked, Wrote, Synced};
ghost use Rattle.store_api.specs.Causes.{HasCause, next_count};
ghost use Rattle.store_api.specs.Past.{Goes, Now};
ghost use Rattle.disk_mem.specs.Left.{image_by};
ghost use Rattle.disk_mem.specs.Seen.{seen_may_be_left};
ghost use Rattle.disk_mem.specs.Replay.{state_after, past_of, Shows, IsResting, Tells, empty_image};

use crate::areas::{Areas, copy_from};
use crate::call::{Call, count, record};
use crate::image::{Pick, image_of};
use crate::write::record_write;
use inno_types::Ids;
use std::alloc::Global;
use store_api::{Area, Disk, Failed, NoMemory};

/// A disk in memory. Once memory has run out for the record of calls, each call fails and it tells no more.
#[derive(Drop)]
pub struct MemDisk {
    alloc: Global,
    /// What stood there before the first call.
    start: Areas,
    areas: Areas,
    /// The numbers of the calls that are to fail, counted from 1.
    fail: Ids,
    calls: Vec<Call>,
    moment: u64,
    faults: u64,
    ghost recorded: { vec_len calls ≤ moment },
    ghost shows: { moment < 2 ^ 64 - 1 → vec_len calls ≡ moment → Shows (state_after start calls.items) areas },
}

impl MemDisk {
    ghost use Rattle.disk_mem.specs.Named.{disk_fails, is_named, Obeys};

    /// A disk of empty areas. It takes no memory.
    pub fn new(alloc: Global, fail: Ids) -> Result<MemDisk, NoMemory>
        ensures resting { IfOk result (λ disk. IsResting empty_image (⟦<MemDisk as Disk>⟧.past disk)) }
        ensures named { IfOk result (λ disk. disk_fails disk ≡ fail) }
    {
        Ok(MemDisk {
            alloc,
            start: Areas::new(alloc),
            areas: Areas::new(alloc),
            fail,
            calls: Vec::new(alloc),
            moment: 0,
            faults: 0,
        })
    }

    /// A disk that holds what a crash at a moment may leave of this one. None of its calls is to fail.
    pub fn image(&self, moment: u64, pick: Pick) -> Result<MemDisk, NoMemory>
        requires { moment ≤ (⟦<MemDisk as Disk>⟧.past self.now).moment }
        ensures bytes { IfOk result (λ disk. (s : State) → (⟦<MemDisk as Disk>⟧.past self.now).state_at moment ≡ Some s
            → IsResting (image_by pick s) (⟦<MemDisk as Disk>⟧.past disk)) }
        ensures allowed { OnOk result ((s : State) → (⟦<MemDisk as Disk>⟧.past self.now).state_at moment ≡ Some s → IsImage s (image_by pick s)) }
        ensures unnamed { IfOk result (λ disk. disk_fails disk ≡ []) }
    {
        let calls = &self.calls[..self.calls.len().min(moment as usize)];
        let log = image_of(self.alloc, &self.start.log, Area::Log, calls, pick)?;
        let double = image_of(self.alloc, &self.start.double, Area::Double, calls, pick)?;
        let pages = image_of(self.alloc, &self.start.pages, Area::Pages, calls, pick)?;
        MemDisk::holding(self.alloc, log, double, pages)
    }

    fn holding(
        alloc: Global,
        log: Vec<u8>,
        double: Vec<u8>,
        pages: Vec<u8>,
    ) -> Result<MemDisk, NoMemory>
        ensures resting { IfOk result (λ disk. IsResting (record { log = log.items; double = double.items; pages = pages.items }) (⟦<MemDisk as Disk>⟧.past disk)) }
        ensures unnamed { IfOk result (λ disk. disk_fails disk ≡ []) }
    {
        let start = Areas {
            log: Vec::from_slice(alloc, &log)?,
            double: Vec::from_slice(alloc, &double)?,
            pages: Vec::from_slice(alloc, &pages)?,
        };
        Ok(MemDisk {
            alloc,
            start,
            areas: Areas { log, double, pages },
            fail: Ids::new(alloc),
            calls: Vec::new(alloc),
            moment: 0,
            faults: 0,
        })
    }

    /// Whether the next call is to fail.
    fn is_refused(&self) -> bool
        ensures { result ≡ is_named self.now.fail (next_count self.now.moment) }
    {
        self.fail
            .as_slice()
            .contains(&self.moment.saturating_add(1))
    }

    /// Whether all calls so far are recorded, and the next can be.
    fn is_told(&self) -> bool
        ensures { IsTrue result ↔ (self.now.moment < 2 ^ 64 - 1) × (vec_len self.now.calls ≡ self.now.moment) }
    {
        self.moment < u64::MAX && self.calls.len() as u64 == self.moment
    }

    /// A call that changes nothing.
    fn look(&mut self) -> Result<(), Failed>
        ensures goes { (area : _) → Goes (Within area (Looked (is_ok result))) (past_of self.old.start self.old.calls.items self.old.moment self.old.faults) (past_of self.new.start self.new.calls.items self.new.moment self.new.faults) }
        ensures cause { HasCause self.old.faults self.new.faults result }
        ensures areas { self.new.areas ≡ self.old.areas }
        ensures tells { OnOk result (Tells (past_of self.new.start self.new.calls.items self.new.moment self.new.faults)) }
        ensures obeys { Obeys self.old.fail (next_count self.old.moment) (past_of self.new.start self.new.calls.items self.new.moment self.new.faults) result }
        ensures named { self.new.fail ≡ self.old.fail }
    {
        let done = !self.is_refused();
        let told = self.is_told();
        self.moment = self.moment.saturating_add(1);
        let recorded = record(&mut self.calls, told, Call::Look);
        count(recorded & done, &mut self.faults)
    }
}

impl Disk for MemDisk {
    ghost use Rattle.disk_mem.specs.Named.{disk_fails, Obeys};

    ghost past = { λ d. past_of d.start d.calls.items d.moment d.faults };

    ghost seen_may_be_left = { λ d m s told. seen_may_be_left d.start d.calls.items m s told };

    fn len(&mut self, area: Area) -> Result<u64, Failed>
        ensures length { IfOk result (λ n. Now (λ s. n ≡ length (contents_of area s).seen) (⟦<MemDisk as Disk>⟧.past self.old)) }
        ensures goes { Goes (Within area (Looked (is_ok result))) (⟦<MemDisk as Disk>⟧.past self.old) (⟦<MemDisk as Disk>⟧.past self.new) }
        ensures cause { HasCause (⟦<MemDisk as Disk>⟧.past self.old).faults (⟦<MemDisk as Disk>⟧.past self.new).faults result }
        ensures tells { OnOk result (Tells (⟦<MemDisk as Disk>⟧.past self.new)) }
        ensures obeys { Obeys (disk_fails self.old) (next_count (⟦<MemDisk as Disk>⟧.past self.old).moment) (⟦<MemDisk as Disk>⟧.past self.new) result }
        ensures named { disk_fails self.new ≡ disk_fails self.old }
    {
        self.look()?;
        Ok(self.areas.bytes(area).len() as u64)
    }

    fn read(&mut self, area: Area, at: u64, into: &mut [u8]) -> Result<usize, Failed>
        ensures count { IfOk result (λ n. n ≤ length into.new) }
        ensures bytes { IfOk result (λ n. Now (λ s. take n into.new ≡ take (length into.new) (drop at (contents_of area s).seen)) (⟦<MemDisk as Disk>⟧.past self.old)) }
        ensures goes { Goes (Within area (Looked (is_ok result))) (⟦<MemDisk as Disk>⟧.past self.old) (⟦<MemDisk as Disk>⟧.past self.new) }
        ensures cause { HasCause (⟦<MemDisk as Disk>⟧.past self.old).faults (⟦<MemDisk as Disk>⟧.past self.new).faults result }
        ensures tells { OnOk result (Tells (⟦<MemDisk as Disk>⟧.past self.new)) }
        ensures obeys { Obeys (disk_fails self.old) (next_count (⟦<MemDisk as Disk>⟧.past self.old).moment) (⟦<MemDisk as Disk>⟧.past self.new) result }
        ensures named { disk_fails self.new ≡ disk_fails self.old }
    {
        self.look()?;
        Ok(copy_from(self.areas.bytes(area), at, into))
    }

    fn write(&mut self, area: Area, at: u64, bytes: &[u8]) -> Result<(), Failed>
        ensures goes { Goes (Within area (Wrote at bytes.now (is_ok result))) (⟦<MemDisk as Disk>⟧.past self.old) (⟦<MemDisk as Disk>⟧.past self.new) }
        ensures cause { HasCause (⟦<MemDisk as Disk>⟧.past self.old).faults (⟦<MemDisk as Disk>⟧.past self.new).faults result }
        ensures tells { OnOk result (Tells (⟦<MemDisk as Disk>⟧.past self.new)) }
        ensures obeys { Obeys (disk_fails self.old) (next_count (⟦<MemDisk as Disk>⟧.past self.old).moment) (⟦<MemDisk as Disk>⟧.past self.new) result }
        ensures named { disk_fails self.new ≡ disk_fails self.old }
    {
        let done = !self.is_refused();
        let told = self.is_told();
        self.moment = self.moment.saturating_add(1);
        let recorded = record_write(
            self.alloc,
            &mut self.areas,
            &mut self.calls,
            told,
            area,
            at,
            bytes,
            done,
        );
        count(recorded & done, &mut self.faults)
    }

    fn sync(&mut self, area: Area) -> Result<(), Failed>
        ensures goes { Goes (Within area (Synced (is_ok result))) (⟦<MemDisk as Disk>⟧.past self.old) (⟦<MemDisk as Disk>⟧.past self.new) }
        ensures cause { HasCause (⟦<MemDisk as Disk>⟧.past self.old).faults (⟦<MemDisk as Disk>⟧.past self.new).faults result }
        ensures tells { OnOk result (Tells (⟦<MemDisk as Disk>⟧.past self.new)) }
        ensures obeys { Obeys (disk_fails self.old) (next_count (⟦<MemDisk as Disk>⟧.past self.old).moment) (⟦<MemDisk as Disk>⟧.past self.new) result }
        ensures named { disk_fails self.new ≡ disk_fails self.old }
    {
        let done = !self.is_refused();
        let told = self.is_told();
        self.moment = self.moment.saturating_add(1);
        let recorded = record(&mut self.calls, told, Call::Sync(area, done));
        count(recorded & done, &mut self.faults)
    }

    fn moment(&self) -> u64 {
        self.moment
    }
}
