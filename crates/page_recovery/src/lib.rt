//! Recovery: torn pages are put right, the log's whole groups are read, and they bring each page on by LSN.
//! Whoever opens files that keep rows in pages is to call `recover` first; so far only tests do. It writes nothing but whole
//! copies of torn pages.
#![tactic(auto)]

mod applying;
mod bad;
mod following;
mod header;
mod laws;
mod pages;
mod reading;
mod recovering;

pub use bad::RecoverBad;
pub use laws::{
    a_page_below_the_run_is_as_it_was, a_recovered_run_goes_on, what_a_step_leaves_recovers,
};
pub use pages::Pages;
pub use recovering::{Recovered, recover};
