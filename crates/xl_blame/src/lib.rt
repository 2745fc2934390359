//! `xl blame`: which members' words for two ledgers the written journals of several nodes show, and which of their
//! reports differ.
//!
//! It is a machine for xl_lines, and stands on xl_shown, by which each journal is followed, and on xl_forks, which finds
//! who said two ledgers. Its one contract: what `blame` writes is a function of the bytes that the source held.
#![tactic(auto)]

mod command;
mod confessions;
mod gathering;
mod limits;
mod machine;
mod networks;
mod summary;
mod texts;

pub use command::Blame;
