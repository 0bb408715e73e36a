//! Laws: when a world agrees with its past (specs/), and that it does after each entry, whatever its kind (proofs/). The laws
//! on changes, searches and lists over a world cite them.
#![tactic(auto)]
