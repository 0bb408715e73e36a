//! Laws on lists over a world (`IsHeld` of desks): each kind of step keeps what is held between calls: an entry that changes
//! no row, a search, a change of a row, and its taking back. The definitions stand in specs/, the laws in proofs/; the lists
//! over a world cite them.
#![tactic(auto)]
