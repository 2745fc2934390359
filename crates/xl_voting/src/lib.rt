//! `xl flags`: which amendments and which fee the members' votes put in force, flag ledger by flag ledger.
//!
//! It reads a schedule that may hold lines of votes, and runs it. After each delivery, each timer and each other event
//! it looks at what was reported. At a node's report of a flag ledger that the node knows, votes are counted.
//!
//! Its voter is a machine for xl_lines, and stands on xl_running and on xl_flags. Its one contract: what `flags` writes
//! is read from the list of all votes and flag reports, a function of the bytes that the source held. One moment alone
//! is kept for each node and amendment.
#![tactic(auto)]

mod command;
mod counting;
mod latest;
mod reports;
mod tally;
mod texts;
mod voter;

pub use command::Flags;
