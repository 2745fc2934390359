//! The spelling of lines: a line of a schedule becomes bytes again.
//!
//! A line that was read has one spelling: its tokens with a space between each two, numbers in decimal digits, ids and
//! bytes in lower-case hexadecimal ones, names as they stood.
//!
//! It stands on xl_sched and on what that stands on. Its one contract: whatever says a line to a reader, the line's
//! spelling says the same line to that reader.
#![tactic(auto)]

mod entries;
mod event;
mod laws;
mod line;
mod tokens;

pub use laws::law_of_read_lists;
pub use line::print_line;
