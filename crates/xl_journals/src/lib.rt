//! What the journals of a network's nodes say together.
//!
//! Its one contract: if each entry of each journal is right, and each frame that a node heard was given by its sender's
//! node, no two journals report different ledgers of one sequence under lists that are enough for each other.
#![tactic(auto)]

mod laws;

pub use laws::law_of_journals;
