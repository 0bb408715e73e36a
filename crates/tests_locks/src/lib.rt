//! Locks: the documentation's table of conflicts, requests that wait, cycles of waits, latches, and threads that take the
//! turn.
//! There is nothing here but tests.
#![tactic(auto)]

#[cfg(test)]
mod cycles;
#[cfg(test)]
mod latches;
#[cfg(test)]
mod requests;
#[cfg(test)]
mod rooms;
#[cfg(test)]
mod rules;
#[cfg(test)]
mod turns;
