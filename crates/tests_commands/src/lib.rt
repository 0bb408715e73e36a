//! Tests of the program's commands beside scripts: one after another over a disk in memory, words that are no command, and the
//! line that is said of a fault.
#![tactic(auto)]

#[cfg(test)]
mod causes;
#[cfg(test)]
mod commands;
