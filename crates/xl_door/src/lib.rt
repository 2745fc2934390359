//! The door of a running node: clients hand transactions in, one a line, and hear an answer to each.
//!
//! A worker asks the store whether the node is to stop, and takes the next line from the door. A line that is the id of a
//! transaction, as 64 hexadecimal digits, is submitted, and answered by `taken` or by the code of its refusal. Each other
//! line has an answer of its own.
//!
//! It stands on the store of xl_store and the door of xl_links. Its one contract: its calls of the store stand in the
//! history at the places that its pass gained, and beside the questions whether to stop they are one submit for each
//! line that is an id, in order. What its clients took is each line's answer, or a front of it if the door failed.
#![tactic(auto)]

mod attending;
mod ends;
mod hearing;
mod replies;

pub use attending::attend;
pub use ends::Attended;
pub use replies::Reply;
