//! Trees over pages: an index in a tree beside one in memory, through the calls of the trait `Entries`, and the check of a mount
//! on pages that are laid out by hand. There is nothing here but tests.
#![tactic(auto)]

#[cfg(test)]
mod both;
#[cfg(test)]
mod checking;
