//! Scripts and the texts of histories: what stands at a place of a script, what a program of many sessions reads, and what
//! it prints. All of it is over bytes in memory. Nothing here meets the engine or the outside.
#![tactic(auto)]

mod directive;
mod line;
mod name;
mod part;
mod printing;
mod quote;
mod reading;
mod script;
mod writing;

pub use directive::{Directive, directive_at};
pub use line::line_at;
pub use part::{Part, part_at};
pub use printing::transcript;
pub use reading::{one_meaning, read_script};
pub use script::{Directives, Limited, Script, ScriptBad, ScriptItem, Tick, WriteBad};
pub use writing::write_script;
