//! Sessions that open on databases that are there: calls and their answers, with ample memory.
//! There is nothing here but tests.
#![tactic(auto)]

#[cfg(test)]
mod database;
#[cfg(test)]
mod opened;
#[cfg(test)]
mod sessions;
