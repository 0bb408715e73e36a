//! A statement under way, whichever it is: what refuses it at once, and then the machine of its kind. The engine seats it,
//! drives it a step at a time, and knows no machine by name. That it may be broken off at each step is a law beside it.
#![tactic(auto)]

mod broken_off;
mod under_way;

pub use broken_off::an_item_may_break_off_at_each_step;
pub use under_way::Statement;
