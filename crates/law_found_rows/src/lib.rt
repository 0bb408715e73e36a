//! Laws: databases of a history fit their tables; and what a search over a world finds is what the past says of its table,
//! while other sessions make their steps. They stand in proofs/, for the lists that keep a world and one search a session.
#![tactic(auto)]
