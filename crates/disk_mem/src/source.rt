//! A source of bytes in memory. It tells what is left, and fails at the calls that it is told to fail.
//! Only tests make one, of bytes that they hand in whole.

ghost use Rattle.std.specs.Prelude.{◌≡◌, ◌<◌, ◌≤◌, [], ◌++◌, ℕ, List, IfOk, Some, take, drop, length, not, is_ok};
ghost use Rattle.std.specs.Io.{ReadsAtMost};
ghost use Rattle.std.specs.Io.KnownBytes.{ReadConsumes};
ghost use Rattle.store_api.specs.Causes.{HasCause, next_count};

use crate::call::count;
use inno_types::{Bytes, Ids};
use std::alloc::Global;
use store_api::{Failed, NoMemory, Source};

/// Gives bytes of memory.
#[derive(Drop)]
pub struct MemSource {
    bytes: Bytes,
    /// How many bytes were read.
    at: usize,
    /// The numbers of the calls that are to fail, counted from 1.
    fail: Ids,
    calls: u64,
    faults: u64,
    ghost within: { at ≤ length bytes },
}

impl MemSource {
    ghost use Rattle.disk_mem.specs.Named.{source_fails, source_calls};

    /// It takes no memory.
    pub fn new(_alloc: Global, bytes: Bytes, fail: Ids) -> Result<MemSource, NoMemory>
        ensures left { IfOk result (λ source. ⟦<MemSource as Source>⟧.left source ≡ Some bytes) }
        ensures named { IfOk result (λ source. source_fails source ≡ fail) }
        ensures none { IfOk result (λ source. source_calls source ≡ 0) }
    {
        Ok(MemSource {
            bytes,
            at: 0,
            fail,
            calls: 0,
            faults: 0,
        })
    }
}

impl Source for MemSource {
    ghost use Rattle.disk_mem.specs.Named.{source_fails, source_calls, is_named};

    ghost left = { λ source. Some (drop source.at source.bytes) };

    ghost faults = { λ source. source.faults };

    fn read(&mut self, into: &mut [u8]) -> Result<usize, Failed>
        ensures bound { ReadsAtMost result into.new }
        ensures bytes { ReadConsumes (⟦<MemSource as Source>⟧.left self.old) (⟦<MemSource as Source>⟧.left self.new) result into.new }
        ensures cause { HasCause (⟦<MemSource as Source>⟧.faults self.old) (⟦<MemSource as Source>⟧.faults self.new) result }
        ensures exact { is_ok result ≡ not (is_named (source_fails self.old) (next_count (source_calls self.old))) }
        ensures named { source_fails self.new ≡ source_fails self.old }
        ensures counted { source_calls self.new ≡ next_count (source_calls self.old) }
    {
        self.calls = self.calls.saturating_add(1);
        let done = !self.fail.as_slice().contains(&self.calls);
        count(done, &mut self.faults)?;
        let given = hand_out(&self.bytes.as_slice()[self.at..], into);
        self.at += given;
        Ok(given)
    }
}

/// Copies as many bytes of the rest as there is room for, and answers how many.
fn hand_out(rest: &[u8], into: &mut [u8]) -> usize
    ensures rest { result ≤ length rest.now }
    ensures room { result ≤ length into.new }
    ensures some { result ≡ 0 → 0 < length into.new → rest.now ≡ [] }
    ensures handed { rest.now ≡ take result into.new ++ drop result rest.now }
{
    let count = rest.len().min(into.len());
    into[..count].copy_from_slice(&rest[..count]);
    count
}
