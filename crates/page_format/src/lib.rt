//! Pages of 4,096 bytes: what stands in them, whether bytes are a page, and edits of the records of tree pages.
//! Contracts see a page as its bytes; specs/Words.antt names what stands in them. No call takes memory.
#![tactic(auto)]

mod behind;
mod edits;
mod fences;
mod header;
pub mod layout;
mod page;
mod read;
mod records;
mod shape;
mod split;

pub use page::Page;
pub use read::PageBad;
pub use records::Found;
