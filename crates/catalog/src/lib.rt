//! The catalog: which tables there are, with the root pages of their indexes. It stands on pages 5 to 20, one table each, and an
//! entry of it as bytes is made and read here too (`entry`). No other crate writes to these pages.
#![tactic(auto)]

mod creating;
mod entry;
mod held;
mod laws;
mod loading;
mod makeable;
mod pages;
mod reading;
mod roots;
mod tables;
mod write;

pub use creating::create;
pub use entry::{get_entry, put_entry, put_table};
pub use held::{EntryBad, Held, Roots, Schemas};
pub use laws::made_is_declared;
pub use loading::load;
pub use makeable::could_be_made;
