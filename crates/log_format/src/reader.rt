//! The groups of a log area one after the other, read from the disk in pieces of 64 blocks: no more of the area stands in
//! memory than a piece and the group that is under way. Mounts and recovery ask here; nothing is written.

ghost use Rattle.std.specs.Prelude.{◌≡◌, ◌+◌, ◌*◌, ◌<◌, ◌≤◌, ◌⊎◌, [], ℕ, List, length, drop, true, IfOk, IfErr, OnOk, OnErr, is_ok};
ghost use Rattle.store_api.specs.Areas.{piece};
ghost use Rattle.store_api.specs.Causes.{HasCause};
ghost use Rattle.store_api.specs.Past.{Past, Now};
ghost use Rattle.log_format.specs.declared.group.Group.{Group as GroupValue};
ghost use Rattle.log_format.specs.Block.{IsGood, payload_of};
ghost use Rattle.log_format.specs.Scan.{HasWhole};
ghost use Rattle.log_format.specs.Given.{HasGiven, Gives, IsFound, Reads, IsNearer, FailedRose};
ghost use Rattle.log_format.specs.declared.reader.Next.TheVariants.{More as NextMore};
ghost use Rattle.log_format.specs.declared.reader.ReadBad.TheVariants.{NoMemory as NoReadMemory};

use crate::block::BLOCK;
use crate::group::Group;
use crate::pieces::{is_whole, put_payloads};
use crate::scan::{next_group, payload};
use std::alloc::{AllocError, Global};
use std::marker::Model;
use store_api::{Area, Disk, Failed, NoMemory};

/// How many bytes are read at once.
const PIECE: usize = 32_768;

/// No block from this one on is read, so that no place passes its type's end.
const LAST_BLOCK: u64 = 1 << 54;

/// What a step found.
#[derive(Drop)]
pub enum Next {
    /// The next group.
    Group(Group),
    /// No group yet: a piece more was read.
    More,
    /// There are no more.
    End,
}

/// Why a step found nothing. The reader is as it was, and may be asked again.
#[derive(Clone, Copy)]
pub enum ReadBad {
    Failed,
    NoMemory,
}

impl From<AllocError> for ReadBad {
    ghost from_gives = { λ _ e. e ≡ NoReadMemory };

    fn from(_: AllocError) -> ReadBad {
        ReadBad::NoMemory
    }
}

/// A log area that is being read.
#[derive(Drop)]
pub struct Reader {
    run: u64,
    block: u64,
    next: u64,
    piece: Vec<u8>,
    /// Payloads; groups were read from those before `at`.
    stream: Vec<u8>,
    at: usize,
    ended: bool,
}

impl Model for Reader {
    ghost use Rattle.std.specs.Prelude.{◌≡◌, ◌≤◌, ◌+◌, ◌^◌, length, drop};
    ghost use Rattle.log_format.specs.Given.{ReaderView};

    ghost Value = { ReaderView };

    ghost invariant = { λ r. (length r.piece.items ≡ 32768) × (r.at ≤ length r.stream.items) × (r.block ≤ 2 ^ 54 + 64) };

    ghost view = { λ r. record { run = r.run; block = r.block; next = r.next; rest = drop r.at r.stream.items; ended = r.ended } };
}

/// Takes the first bytes away.
fn drop_front(bytes: &mut Vec<u8>, count: usize)
    requires { count ≤ length bytes.old.items }
    ensures { bytes.new.items ≡ drop count bytes.old.items }
{
    let rest = bytes.len() - count;
    bytes.copy_within(count.., 0);
    bytes.truncate(rest);
}

impl Reader {
    /// A reader of a run's groups from this LSN on.
    pub fn new(alloc: Global, run: u64, first: u64) -> Result<Reader, NoMemory>
        ensures run { IfOk result (λ reader. reader.run ≡ run) }
        ensures begins { IfOk result (λ reader. (area : List ℕ) → HasGiven first area [] reader) }
    {
        Ok(Reader {
            run,
            block: 0,
            next: first,
            piece: vec![in alloc; 0; PIECE]?,
            stream: Vec::new(alloc),
            at: 0,
            ended: false,
        })
    }

    /// Reads a piece more.
    fn read_piece<D: Disk>(&mut self, disk: &mut D) -> Result<(), ReadBad>
        ensures run { self.new.run ≡ self.old.run }
        ensures nearer { OnOk result (IsNearer self.old self.new) }
        ensures err { OnErr result (self.new ≡ self.old) }
        ensures reads { Reads (is_ok result) (D.past disk.old) (D.past disk.new) }
        ensures later { (D.past disk.old).faults ≤ (D.past disk.new).faults }
        ensures cause { IfErr result (FailedRose (D.past disk.old).faults (D.past disk.new).faults) }
        ensures given { (first : ℕ) (area : List ℕ) (given : List GroupValue) → HasGiven first area given self.old
            → OnOk result (Now (λ s. s.log.seen ≡ area → HasGiven first area given self.new) (D.past disk.old)) }
    {
        if self.block >= LAST_BLOCK {
            return Err(ReadBad::NoMemory);
        }
        let Ok(len) = disk.read(Area::Log, 512 * self.block, &mut self.piece) else {
            return Err(ReadBad::Failed);
        };
        drop_front(&mut self.stream, self.at);
        self.at = 0;
        let good = put_payloads(&self.piece[..len], self.run, self.block, &mut self.stream)?;
        self.block += good;
        self.ended = good < 64;
        Ok(())
    }

    /// Takes the group at the front of what was read and not given yet.
    fn take_group(&mut self, alloc: Global) -> Result<Next, ReadBad>
        requires { (self.old.ended ≡ true) ⊎ HasWhole self.old.rest }
        ensures run { self.new.run ≡ self.old.run }
        ensures block { self.new.block ≡ self.old.block }
        ensures ended { self.new.ended ≡ self.old.ended }
        ensures err { OnErr result (self.new ≡ self.old) }
        ensures nearer { IfOk result (λ found. found ≡ NextMore → IsNearer self.old self.new) }
        ensures reason { IfErr result (λ bad. bad ≡ NoReadMemory) }
        ensures is { IfOk result IsFound }
        ensures gives { (first : ℕ) (area : List ℕ) (given : List GroupValue) (past : Past) → HasGiven first area given self.old
            → IfOk result (Gives first area given past self.new) }
    {
        match next_group(alloc, &self.stream[self.at..], self.next)? {
            None => Ok(Next::End),
            Some((group, after)) => {
                let Some(next) = self.next.checked_add(1) else {
                    return Err(ReadBad::NoMemory);
                };
                self.at = self.stream.len() - after.len();
                self.next = next;
                Ok(Next::Group(group))
            }
        }
    }

    /// Finds the next group, or reads a piece more, or tells that there are no more groups. It calls the disk once at most.
    /// A group of the greatest LSN that there is counts as one for which there is no memory.
    pub fn step<D: Disk>(&mut self, alloc: Global, disk: &mut D) -> Result<Next, ReadBad>
        ensures run { self.new.run ≡ self.old.run }
        ensures nearer { IfOk result (λ found. found ≡ NextMore → IsNearer self.old self.new) }
        ensures err { OnErr result (self.new ≡ self.old) }
        ensures reads { Reads (is_ok result) (D.past disk.old) (D.past disk.new) }
        ensures later { (D.past disk.old).faults ≤ (D.past disk.new).faults }
        ensures cause { IfErr result (FailedRose (D.past disk.old).faults (D.past disk.new).faults) }

        // A group is one that has a spelling, whatever the disk tells.
        ensures is { IfOk result IsFound }

        // The groups that it has given are at each step the first ones of the area's scan, and all of them in the end.
        ensures gives { (first : ℕ) (area : List ℕ) (given : List GroupValue) → HasGiven first area given self.old
            → IfOk result (Gives first area given (D.past disk.old) self.new) }
    {
        if !self.ended && !is_whole(&self.stream[self.at..]) {
            self.read_piece(disk)?;
            return Ok(Next::More);
        }
        self.take_group(alloc)
    }

    /// The LSN behind those of the groups that were given.
    pub fn next_lsn(&self) -> u64
        ensures { result ≡ self.now.next }
    {
        self.next
    }

    /// How many blocks were read, all of them good.
    pub fn blocks(&self) -> u64
        ensures { result ≡ self.now.block }
    {
        self.block
    }

    /// How many bytes of their payloads stand behind the groups that were given.
    pub fn left(&self) -> usize
        ensures { result ≡ length self.now.rest }
    {
        self.stream.len() - self.at
    }

    /// How many bytes the payload of a block has that was read before. It calls the disk once. Whether the block is still good
    /// is not looked at.
    pub fn payload_len<D: Disk>(&self, disk: &mut D, number: u64) -> Result<usize, Failed>
        requires { number < self.now.block }
        ensures len { IfOk result (λ n. Now (λ s. IsGood self.now.run number s.log.seen → n ≡ length (payload_of (piece BLOCK number s.log.seen)))
            (D.past disk.old)) }
        ensures reads { Reads (is_ok result) (D.past disk.old) (D.past disk.new) }
        ensures cause { HasCause (D.past disk.old).faults (D.past disk.new).faults result }
    {
        let _end = self.block;
        let mut block = [0; BLOCK];
        let _count = disk.read(Area::Log, 512 * number, &mut block)?;
        Ok(payload(&block).len())
    }
}
