//! Room for an undo record, as a store gives it to a session. A world keeps a copy of what its sessions were given.

/// For how many bytes a session's next undo record has room, and the roll pointer that it will have. Without room both
/// are 0.
#[derive(Clone, Copy, Debug)]
pub struct Room {
    pub bytes: u16,
    pub pointer: u64,
}
