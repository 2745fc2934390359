//! What `xl blame` names, by law.
//!
//! Its one contract: in a text that isn't refused, each fork shows at least as many members as both quorums force, and
//! each name is of a member that two right journals show to have said both ledgers.
#![tactic(auto)]

mod laws;

pub use laws::{law_of_blamed_texts, law_of_gathering, law_of_giving, law_of_showing};
