//! The pages by number, as one mini-transaction sees them: a trait, and pages in memory that meet it.
//! The space map and the catalog read and change pages through this trait alone.
#![tactic(auto)]

mod listed;
mod pages;
mod reading;
mod resident;
mod store;

pub use listed::ListedPages;
pub use pages::Mtr;
pub use reading::{capacity, u32_on};
pub use resident::Resident;
pub use store::MOST_VISITED;
