//! Files that keep no rows in pages, version 0: page 0 alone, and a log of the changes of each commit. `init` makes
//! them; `mount` reads the database, writes zeros after its groups, and leaves a log that can go on. `engine` mounts to
//! open a database, `script_runner` to dump or check one; `init` is for `script_runner`. Tests call both.
#![tactic(auto)]

mod database;
mod fields;
mod header;
mod log;
mod making;
mod mounting;
mod zero;

pub use making::init;
pub use mounting::{Mounted, mount};
pub use zero::zero_rest;
