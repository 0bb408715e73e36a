//! Buffers whose memory is used again: whoever walks an index hands them on from pair to pair, so that a pair takes no
//! memory once they are long enough. Contracts don't see what stands in them.

ghost use Rattle.std.specs.Prelude.{◌≡◌, ◌≤◌, IfOk, vec_capacity};

use inno_types::Bytes;
use std::alloc::{AllocError, Global};
use std::marker::Model;
use std::mem;

/// A buffer for one run of bytes.
#[derive(Drop)]
pub struct Buffer {
    bytes: Vec<u8>,
}

impl Model for Buffer {
    ghost Value = { Unit {0} };

    ghost view = { λ _. tt };
}

impl Buffer {
    /// A buffer that has no memory yet.
    pub fn new(alloc: Global) -> Buffer {
        Buffer {
            bytes: Vec::new(alloc),
        }
    }

    /// A copy of these bytes, in the buffer's memory, which goes with it.
    pub fn filled(&mut self, alloc: Global, bytes: &[u8]) -> Result<Bytes, AllocError>
        ensures { IfOk result (λ copy. copy ≡ bytes.now) }
    {
        let mut copy = mem::replace(&mut self.bytes, Vec::new(alloc));
        copy.clear();
        copy.extend_from_slice(bytes)?;
        Ok(Bytes::from_vec(copy))
    }

    /// The buffer's memory, with room for so many bytes.
    pub fn with_room(&mut self, alloc: Global, room: usize) -> Result<Vec<u8>, AllocError>
        ensures { IfOk result (λ bytes. room ≤ vec_capacity bytes) }
    {
        let mut bytes = mem::replace(&mut self.bytes, Vec::new(alloc));
        bytes.clear();
        bytes.reserve(room)?;
        Ok(bytes)
    }

    /// Takes the memory of bytes that are needed no more.
    pub fn keep(&mut self, bytes: Bytes) {
        self.bytes = bytes.into_vec();
    }
}

/// Buffers for a key and its value.
#[derive(Drop)]
pub struct PairBuffers {
    pub key: Buffer,
    pub value: Buffer,
}

impl PairBuffers {
    /// Buffers that have no memory yet.
    pub fn new(alloc: Global) -> PairBuffers {
        PairBuffers {
            key: Buffer::new(alloc),
            value: Buffer::new(alloc),
        }
    }

    /// A copy of a pair, in the buffers' memory, which goes with it.
    pub fn filled(
        &mut self,
        alloc: Global,
        key: &[u8],
        value: &[u8],
    ) -> Result<(Bytes, Bytes), AllocError>
        ensures { IfOk result (λ pair. pair ≡ (key.now, value.now)) }
    {
        let key = self.key.filled(alloc, key)?;
        Ok((key, self.value.filled(alloc, value)?))
    }

    /// Takes the memory of a pair that is needed no more.
    pub fn keep(&mut self, pair: (Bytes, Bytes)) {
        self.key.keep(pair.0);
        self.value.keep(pair.1);
    }
}
