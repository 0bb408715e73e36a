//! Sessions on threads, over one engine that goes from thread to thread in turns. Any engine that meets `Turns` can be
//! shared; who has the turn makes one call of it. What lies between two calls is the turnstile's (`turn_rule`).
#![tactic(auto)]

mod hall;
mod session;
mod turn;
mod turns;

pub use hall::{Hall, share};
pub use session::{Receipt, Session};
pub use turns::Turns;
