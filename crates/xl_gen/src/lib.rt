//! `xl gen`: a schedule of many rounds is made, replayed in memory, and summed up.
//!
//! Seven nodes that trust each other have a timer once a second, and for each round a transaction that only three of
//! them have at first. The schedule is made event by event, and neither its text nor its report is kept.
//!
//! It stands on xl_world and xl_replay. Its one contract: what `generate` writes is the summary of the replayed
//! schedule, a function of the number of rounds, which tells whether the reports agree.
#![tactic(auto)]

mod command;
mod counts;
mod generator;
mod summary;

pub use command::{MOST_ROUNDS, generate};
