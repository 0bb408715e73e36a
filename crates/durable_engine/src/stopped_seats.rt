//! Where each session stands, and how many items it has started.
//! `LoggedSessions` keeps one for each session, so that a stop takes no memory; `StoppedSessions` goes on with them.

use inno_model::Phase;

/// How far a session is, and the number of its last item: 0 before it has started one.
#[derive(Clone, Copy)]
pub struct Seat {
    pub phase: Phase,
    pub started: u32,
}
