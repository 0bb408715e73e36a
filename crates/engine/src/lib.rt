//! The engine: sessions over one history, which a world in memory keeps, opened on the database that its files stand
//! for: `lay` tests that database and lays it down, table by table and row by row. `mount` is the one way to open an engine on a
//! disk; `sessions_over` opens sessions without one, which only tests do.
#![tactic(auto)]

mod counting;
mod keys;
mod layout;
mod opened;
mod opening;
mod rows;
mod tables;

pub use durable_engine::Root;
pub use layout::{LayBad, lay};
pub use opened::{OpenBad, Opening, PutBad};
pub use opening::{Engine, Sessions, mount, sessions_over};
