//! Sessions over a world in memory, by its own calls: what waits for a commit, and what a deadlock's victim leaves behind.
//! There is nothing here but tests.
#![tactic(auto)]

#[cfg(test)]
mod waiting;
