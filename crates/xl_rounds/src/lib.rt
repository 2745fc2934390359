//! The round machine of consensus: from its start on a ledger, by proposals and heartbeats, to a set of transactions
//! and a close time that the members agree on.
//!
//! A round is first open, while transactions are collected. It closes once enough others have, and what is pending then
//! is our first set. In the phase establish each heartbeat counts the members' votes on each transaction, takes the set
//! that wins, chooses a close time, and renews our position if either changed. Once four fifths agree the round is
//! ready: the caller builds the next ledger by what `agreed` says, calls `accept`, and starts a round on that ledger.
//! Time, messages and what the node knows of ledgers and validations are handed in; what is to be sent comes out.
//!
//! It stands on xl_lists, xl_ledger, xl_wire, xl_disputes and xl_closetime, and `Round::open` alone takes memory. Its one
//! contract: each call leaves the round, and answers, as the definitions say, which count positions, votes and times in
//! plain lists.
#![tactic(auto)]

mod agreement;
mod closing;
mod decision;
mod heartbeat;
mod kept;
mod laws;
mod members;
mod pending;
mod phase;
mod placed;
mod positions;
mod refusal;
mod round;
mod setting;

pub use heartbeat::{Agreed, Heartbeat, HeartbeatKind, Said, Seen};
pub use laws::{law_of_constants, rounds};
pub use phase::{Mode, Phase};
pub use placed::Placed;
pub use refusal::RoundRefusal;
pub use round::Round;
