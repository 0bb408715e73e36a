//! What is kept of each session of an engine between its steps, what holds of a store of them over one world (`IsHeld`,
//! specs/Holding.antt), and what a step of one session leaves to the others (`Does`, specs/Leaves.antt). The lists over a world
//! alone change them.
#![tactic(auto)]

mod desk;

pub use desk::{Desk, Doing, TableSearch, give_doing, take_doing};
