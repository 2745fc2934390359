//! `xl merge`: which list of members is in force, from the rolls of several publishers.
//!
//! It reads lines that give publishers their keys, hand in rolls, and ask for the list. It is a machine for xl_lines,
//! and stands on xl_sched, whose tokens, limits and refusals its lines have, and on xl_publish. Its one contract: what
//! `merge` writes is a function of the bytes that the source held; and what it tells of a list is one of the set of
//! rolls that were taken.
#![tactic(auto)]

mod command;
mod laws;
mod line;
mod machine;
mod reading;
mod texts;

pub use command::Merge;
pub use laws::law_of_orders;
