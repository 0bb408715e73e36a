//! In what order entries come to a history (specs/Order.antt), what a session sees at a place of a past
//! (specs/Rows.antt), when the rows, transactions and sessions of an engine agree with its past (specs/Agreement.antt),
//! and laws on rows, ids, views and the databases of the model. No code is here: engines rest on them.
#![tactic(auto)]
