//! What the lives of nodes show of what their members said.
//!
//! Its one contract: if two lives of nodes report different ledgers of one sequence, they show members of both lists who
//! said both, at least as many as the quorums force. In a network in which no frame is forged, whoever is shown so is a
//! liar.
#![tactic(auto)]

mod laws;

pub use laws::{law_of_evidence, law_of_innocence, law_of_names};
