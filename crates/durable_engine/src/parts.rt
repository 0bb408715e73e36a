//! What an engine consists of beside its disk: sessions that run, or those of an engine that has stopped.
//! Only the engine's own calls see it.

use crate::{LoggedSessions, StoppedSessions};
use shared_lists::SharedLists;

#[derive(Drop)]
pub enum Core<L: SharedLists> {
    Running(LoggedSessions<L>),
    /// The disk has failed.
    Stopped(StoppedSessions),
    /// It goes from one to the other, within a call.
    Changing,
}
