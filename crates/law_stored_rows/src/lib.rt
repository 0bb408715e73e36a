//! Laws of rows in memory: whatever statements make of a database that fits its tables can be coded; when coded records,
//! kept versions and entries are the rows of all tables, and what each change of one pair makes of them. They stand in
//! proofs/; searches, changes and their taking back cite them.
#![tactic(auto)]
