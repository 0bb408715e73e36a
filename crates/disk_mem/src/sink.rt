//! A sink in memory. It tells what it has taken, and fails at the calls that it is told to fail.
//! Only tests make one, to see what a program prints.

ghost use Rattle.std.specs.Prelude.{◌≡◌, ◌<◌, [], ◌++◌, IfOk, Some, OnErr, OnOk, is_ok, length, true, false};
ghost use Rattle.std.specs.Io.{WritesAtMost};
ghost use Rattle.std.specs.Io.KnownBytes.{WriteAppends};
ghost use Rattle.store_api.specs.Causes.{HasCause, next_count};
ghost use Rattle.disk_mem.specs.Named.{sink_fails, sink_calls, is_named};

use crate::call::count;
use inno_types::{Bytes, Ids};
use std::alloc::{AllocError, Global};
use std::mem;
use store_api::{Failed, NoMemory, Sink};

/// Keeps the bytes that it takes. It takes each piece whole, or fails, also where memory runs out.
#[derive(Drop)]
pub struct MemSink {
    alloc: Global,
    taken: Bytes,
    /// The numbers of the calls that are to fail, counted from 1.
    fail: Ids,
    calls: u64,
    faults: u64,
}

impl MemSink {
    pub fn new(alloc: Global, fail: Ids) -> Result<MemSink, NoMemory>
        ensures taken { IfOk result (λ sink. ⟦<MemSink as Sink>⟧.taken sink ≡ Some []) }
        ensures named { IfOk result (λ sink. sink_fails sink ≡ fail) }
        ensures none { IfOk result (λ sink. sink_calls sink ≡ 0) }
    {
        Ok(MemSink {
            alloc,
            taken: Bytes::new(alloc),
            fail,
            calls: 0,
            faults: 0,
        })
    }

    /// The bytes that were taken so far.
    pub fn taken(&self) -> &Bytes
        ensures { ⟦<MemSink as Sink>⟧.taken self.now ≡ Some result.now }
    {
        &self.taken
    }
}

impl Sink for MemSink {
    ghost taken = { λ sink. Some sink.taken };

    ghost faults = { λ sink. sink.faults };

    fn write(&mut self, piece: &[u8]) -> Result<usize, Failed>
        ensures bound { WritesAtMost result piece.now }
        ensures some { IfOk result (λ n. 0 < length piece.now → 0 < n) }
        ensures bytes { WriteAppends (⟦<MemSink as Sink>⟧.taken self.old) (⟦<MemSink as Sink>⟧.taken self.new) result piece.now }
        ensures cause { HasCause (⟦<MemSink as Sink>⟧.faults self.old) (⟦<MemSink as Sink>⟧.faults self.new) result }
        ensures fails { is_named (sink_fails self.old) (next_count (sink_calls self.old)) ≡ true → is_ok result ≡ false }
        ensures whole { IfOk result (λ n. n ≡ length piece.now) }
        ensures named { sink_fails self.new ≡ sink_fails self.old }
        ensures counted { sink_calls self.new ≡ next_count (sink_calls self.old) }
    {
        self.calls = self.calls.saturating_add(1);
        let done = !self.fail.as_slice().contains(&self.calls);
        count(done, &mut self.faults)?;
        let kept = append(self.alloc, &mut self.taken, piece).is_ok();
        count(kept, &mut self.faults)?;
        Ok(piece.len())
    }
}

/// Puts a piece behind the bytes.
fn append(alloc: Global, bytes: &mut Bytes, piece: &[u8]) -> Result<(), AllocError>
    ensures ok { OnOk result (bytes.new ≡ bytes.old ++ piece.now) }
    ensures err { OnErr result (bytes.new ≡ bytes.old) }
{
    let mut items = mem::replace(bytes, Bytes::new(alloc)).into_vec();
    let done = items.extend_from_slice(piece);
    *bytes = Bytes::from_vec(items);
    done
}
