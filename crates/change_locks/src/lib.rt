//! The locks of changes of rows, by their rules: of a record that is there, of the place before which one is to be inserted,
//! and of the new record. A change asks for each in the step of the call that it belongs to; no change locks yet.
#![tactic(auto)]

mod locker;

pub use locker::Locker;
