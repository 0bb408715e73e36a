//! Tests of the program over disks that crash, fail or hold something else: what is answered, and what a later run
//! reads. There is nothing here but tests.
#![tactic(auto)]

#[cfg(test)]
mod crashes;
#[cfg(test)]
mod failures;
#[cfg(test)]
mod program;
#[cfg(test)]
mod refusals;
