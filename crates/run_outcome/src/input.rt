//! Reads a source to its end.
//! Only `read_input` of `outcome` calls it, before the script is parsed.

ghost use Rattle.std.specs.Prelude.{◌≡◌, ◌≤◌, IfOk, IfSome};
ghost use Rattle.store_api.specs.Causes.{Rose};

use inno_types::{Bytes, Listed};
use std::alloc::{AllocError, Global};
use store_api::{Failed, Source};

/// Why a source isn't read to its end.
#[derive(Clone, Copy)]
pub enum ReadBad {
    Failed,
    NoMemory,
}

impl From<AllocError> for ReadBad {
    ghost use Rattle.run_outcome.specs.declared.input.ReadBad.TheVariants.{NoMemory};

    ghost from_gives = { λ _ e. e ≡ NoMemory };

    fn from(_: AllocError) -> ReadBad {
        ReadBad::NoMemory
    }
}

/// Reads all that a source has.
pub fn read_all<S: Source>(alloc: Global, source: &mut S) -> Result<Bytes, ReadBad>
    ensures all { IfOk result (λ bytes. IfSome (S.left source.old) (λ left. bytes ≡ left)) }
    ensures failed { result ≡ Err ReadBad.Failed → Rose (S.faults source.old) (S.faults source.new) }
    ensures later { S.faults source.old ≤ S.faults source.new }
{
    let mut bytes = Vec::new(alloc);
    let mut piece = [0u8; 4096];
    for _turn in 0..u64::MAX {
        match source.read(&mut piece) {
            Ok(0) => return Ok(Listed::from_vec(bytes)),
            Ok(count) => bytes.extend_from_slice(&piece[..count])?,
            Err(Failed) => return Err(ReadBad::Failed),
        }
    }
    Err(ReadBad::NoMemory)
}
