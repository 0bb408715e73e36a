//! What the engine and the parts below it answer, and what they hand to one another.
//! These types stand here because crates below the engine share them.

use crate::disk::Area;
use inno_types::{Bytes, Cause, Edges, Level, Reply, Row};

/// How far a step came.
#[derive(Drop)]
pub enum Progress {
    Went,
    Latch { by: u32 },
    Waiting { blockers: Edges },
    NotYet,
    Done(Reply),
    Idle,
    Stopped(Cause),
    NoMemory,
}

/// Why files aren't mounted.
#[derive(Clone, Copy, Debug, PartialEq, Eq)]
pub enum MountBad {
    Disk,
    NotInitialised,
    Version {
        found: u32,
    },
    Damaged {
        area: Area,
        place: u64,
        stored: u64,
        computed: u64,
    },
    NoMemory,
    Malformed {
        page: u32,
        rule: u8,
    },
    NotEmpty {
        bytes: u64,
    },
    TooLarge {
        rows: u64,
    },
}

/// What the lock table answers to a request.
#[derive(Drop)]
pub enum Asked {
    Granted,
    Waits { blockers: Edges },
    NoMemory,
}

/// One version of a row: who wrote it, where the version before it is kept (0 for none), and whether it is deleted.
#[derive(Drop)]
pub struct Version {
    pub row: Row,
    pub writer: u64,
    pub pointer: u64,
    pub marked: bool,
}

/// An undo record: the version that a change replaced.
#[derive(Drop)]
pub struct Undo {
    pub kind: u8,
    pub table: u8,
    pub key: Bytes,
    pub value: Bytes,
}

/// Where a session stands: its open transaction, that one's level or else the next one's, whether autocommit is on,
/// the transaction's id or 0, and the number of its own changes.
#[derive(Clone, Copy)]
pub struct Standing {
    pub txn: Option<u64>,
    pub level: Level,
    pub autocommit: bool,
    pub id: u64,
    pub own: u64,
}
