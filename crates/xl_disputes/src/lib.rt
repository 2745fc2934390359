//! Disputed transactions: which sets the members hold, what their positions say of each transaction, and how our own
//! set changes by their votes.
//!
//! A dispute is a transaction that some counted set has and another hasn't. Each heartbeat asks for a larger share of
//! yes votes than the one before, so that sets which differ in little come together.
//!
//! It stands on xl_base and xl_pool. `open` takes all memory, and no later call takes any. An index has each id of a
//! counted set once, with how many positions vote for it. Every call keeps it, so that `update` is one walk over it.
//! Who has several of these hands each of them the same `HashedSets`, so that a set is mostly hashed once for all.
//! Its one contract: `update` makes our set the lowest ids that win their vote, all votes being counted before any
//! changes.
#![tactic(auto)]

mod disputes;
mod hashed_sets;
mod index;
mod moving;
mod place;
mod rising;
mod rows;
mod set;
mod shares;
mod tally;
mod votes;

pub use disputes::Disputes;
pub use hashed_sets::HashedSets;
pub use rising::{count_below, is_first, not_below};
pub use votes::{Votes, threshold};
