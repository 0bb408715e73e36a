//! Tests of the program's top call: scripts over a disk in memory, and what is printed.
//! There is nothing here but tests.
#![tactic(auto)]

#[cfg(test)]
mod runs;
#[cfg(test)]
mod threads;
