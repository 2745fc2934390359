//! `xl lists`: what the trusted lists of each pair of nodes have in common, whether their quorums are enough, and
//! whether they meet the paper's condition.
//!
//! It reads the declarations of a schedule alone, `limit`, `node`, `liar`, `name` and `at`. It is a machine for
//! xl_lines, and stands on xl_sched and xl_lists. Its one contract: what `lists` writes is a function of the bytes that
//! the source held.
#![tactic(auto)]

mod command;
mod declared;
mod machine;
mod texts;
mod words;

pub use command::Lists;
