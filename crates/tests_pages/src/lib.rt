//! Mini-transactions over a pool that is smaller than its file, the flusher, recovery after a crash, and checkpoints, over a disk in
//! memory. There is nothing here but tests.
#![tactic(auto)]

#[cfg(test)]
mod checkpoints;
#[cfg(test)]
mod file;
#[cfg(test)]
mod many_pages;
