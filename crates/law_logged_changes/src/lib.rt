//! Laws of a row's change under way: how far its pairs lag behind the rows, what readers see meanwhile, and the undo logs
//! that tell of it. They stand in proofs/; the laws on lists over a world cite them.
#![tactic(auto)]
