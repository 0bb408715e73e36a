//! How far bytes go on as some statement of the grammar does: the place of a refusal, found by trying.
//! A text begins a statement where one of a few ends of its last token makes it the first tokens of one.
//! Each end costs a reading of the text; only refused texts come here.
#![tactic(auto)]

mod parser;
mod place;
mod prefix;

pub use parser::{ParseBad, parse, refusals_name_the_first_bad_byte};
pub use place::{longest_prefix, no_longer_prefix_begins};
pub use prefix::begins;
