//! How a script drives sessions: on the calling thread, its items in order and between them the steps of all sessions (`play`,
//! over the trait `Sessions`); or its setup part first, and then each other session on a thread of its own, over one engine
//! that goes from thread to thread (`play_on_threads`). specs/Sessions.antt and specs/Playing.antt have their words.
#![tactic(auto)]

mod beginning;
mod on_threads;
mod parts;
mod playing;
mod session;
mod sessions;

pub use on_threads::play_on_threads;
pub use playing::play;
pub use sessions::Sessions;
