//! Negative lists: which members of a node's list are left out of its quorum for a time, since they hardly validate.
//!
//! A node keeps what it heard last of each member, scores the members at each flag ledger, takes back the best of those
//! that it left out, and leaves out the worst of the others. Each node decides for itself.
//!
//! It stands on xl_lists and xl_ledger; only opening the scores takes memory. Its one contract: scores and decisions
//! are those of the list of all that was heard. Two lists that come from one declared list have quorums that are
//! enough if three fifths of it, twice, exceed its members and the liars among them.
#![tactic(auto)]

mod deciding;
mod laws;
mod score;

pub use deciding::{Decided, decide};
pub use laws::{law_of_negative_lists, law_of_rings};
pub use score::Scores;
