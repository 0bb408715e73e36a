//! Why files aren't recovered.
//! Only `recover` and its parts make one, and who called it tells it on; nothing here meets the disk.

ghost use Rattle.std.specs.Prelude.{◌≡◌};
ghost use Rattle.page_recovery.specs.declared.bad.RecoverBad.TheVariants.{Failed as DiskFailed, NoMemory as LacksMemory};
ghost use Rattle.page_recovery.specs.Refused.{of_repair, of_reading};

use doublewrite::RepairBad;
use log_format::ReadBad;
use std::alloc::AllocError;
use store_api::{Failed, NoMemory};

/// Why files aren't recovered. Recovery may be tried again.
#[derive(Clone, Copy)]
pub enum RecoverBad {
    /// The disk failed.
    Failed,
    NoMemory,
    /// Page 0 has no good copy.
    NoHeader,
    /// Page 0 isn't the first page of a database.
    NoDatabase,
    /// It is one of another version.
    Version { found: u32 },
    /// It counts fewer pages than any file has, or more.
    Capacity { found: u32 },
    /// The log changes a page that the file can't have.
    PastTheEnd { page: u32 },
}

impl From<Failed> for RecoverBad {
    ghost from_gives = { λ _ e. e ≡ DiskFailed };

    fn from(_: Failed) -> RecoverBad {
        RecoverBad::Failed
    }
}

impl From<AllocError> for RecoverBad {
    ghost from_gives = { λ _ e. e ≡ LacksMemory };

    fn from(_: AllocError) -> RecoverBad {
        RecoverBad::NoMemory
    }
}

impl From<NoMemory> for RecoverBad {
    ghost from_gives = { λ _ e. e ≡ LacksMemory };

    fn from(_: NoMemory) -> RecoverBad {
        RecoverBad::NoMemory
    }
}

impl From<ReadBad> for RecoverBad {
    ghost from_gives = { λ bad e. e ≡ of_reading bad };

    fn from(bad: ReadBad) -> RecoverBad {
        match bad {
            ReadBad::Failed => RecoverBad::Failed,
            ReadBad::NoMemory => RecoverBad::NoMemory,
        }
    }
}

/// Why a repair gave up, as recovery tells it.
pub fn from_repair(bad: RepairBad) -> RecoverBad
    ensures { result ≡ of_repair bad }
{
    match bad {
        RepairBad::Failed => RecoverBad::Failed,
        RepairBad::NoMemory => RecoverBad::NoMemory,
    }
}
