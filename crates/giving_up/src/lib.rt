//! How a statement on rows ends. One that was refused or given up takes its changes back, and its own transaction with them; a
//! transaction of its own that was committed awaits its acknowledgement; the reply comes last. The machine of a statement hands over
//! to these steps, whatever it did before.
#![tactic(auto)]

mod backing;
mod ending;
mod leaving;

pub use ending::{commit, end, overfull_by, roll_back};
pub use leaving::{
    Leaving, Work, an_acknowledgement_moves_it_on, one_that_leaves_tells_no_change,
    others_leave_it, reply_for,
};
