//! What a call of an index answers.
//! It stands here because statements, rollback and purge go on by it, over whatever keeps the index.

use inno_types::Bytes;

/// How far a call came. After `Step`, `Latch` and `Again` the same call is to be made again.
#[derive(Drop)]
pub enum Move {
    /// A pair: its key and its value.
    At(Bytes, Bytes),
    /// There is no such pair.
    End,
    Done,
    /// One more page or latch was dealt with.
    Step,
    /// This actor stands in the way.
    Latch { by: u32 },
    /// The page isn't in the pool, and no frame there is clean and unfixed.
    Again,
    /// The call needs more pages than are free.
    Full { need: u32, free: u32 },
    /// A tree of eight levels would have one more.
    TooDeep,
    /// The disk failed, and counted a fault.
    Failed,
    /// The page breaks this rule of its format.
    Bad { page: u32, rule: u8 },
    NoMemory,
}
