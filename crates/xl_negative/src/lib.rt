//! `xl negative`: a schedule is read and run line by line, and written again with the lists that its nodes go over to.
//!
//! A member that hardly validates can be left out of a node's list for a time. At each flag ledger that a node reports
//! and knows, it decides by what it heard, by the rules of xl_nunl. The line of its new list stands behind the line of
//! the schedule at which it decided. So `replay` reads what is written, and runs what was run here.
//!
//! It stands on xl_nunl, xl_running, xl_spelling and xl_lines. Its one contract: what `negative` writes is the
//! schedule with the lists that the rules give behind its lines, and with no others: a function of the bytes that the
//! source held.
#![tactic(auto)]

mod command;
mod deciding;
mod hearing;
mod laws;
mod scores;
mod seat;
mod seats;
mod writer;

pub use command::Negative;
pub use laws::{
    law_of_added_lists, law_of_agreeing_reports, law_of_changes, law_of_lists,
    law_of_lists_in_force, law_of_written_runs,
};
