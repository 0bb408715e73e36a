//! Many sessions on threads over the database of a disk in memory.
//! There is nothing here but tests.
#![tactic(auto)]

#[cfg(test)]
mod many;
