//! The entries of a history. The engine adds them; everything that is promised of it is read off them.
//! In an engine `parts_world` adds them, and `durable_engine` does once the engine has stopped.

use inno_db::{Change, Db};
use inno_types::{Bytes, Cause, Edges, Item, Level, Lock, Reply};

/// An entry of a history. `s` is the number of a session, `j` of an item within its session, from 1, and `txn` of a
/// transaction in order of begin, from 1.
#[derive(Drop)]
pub enum Event {
    Opened {
        db: Db,
    },
    Begin {
        s: u32,
        txn: u64,
        level: Level,
    },
    Started {
        s: u32,
        j: u32,
        item: Item,
    },
    View {
        s: u32,
    },
    Changed {
        s: u32,
        change: Change,
    },
    Waits {
        s: u32,
        lock: Lock,
        blockers: Edges,
        at: u64,
    },
    Victim {
        s: u32,
        cycle: Edges,
    },
    Undone {
        s: u32,
        keep: u64,
    },
    Ended {
        s: u32,
        j: u32,
        reply: Reply,
    },
    Committed {
        s: u32,
    },
    Acked {
        s: u32,
        moment: u64,
    },
    RolledBack {
        s: u32,
    },
    Signal {
        name: Bytes,
    },
    Stopped {
        cause: Cause,
    },
}
