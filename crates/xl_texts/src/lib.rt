//! The one contract of each command that writes a text about its input: it keeps its promise, which is a record of
//! functions of bytes.
//!
//! A `TextCommand` says what it promises and opens what tells the text. `tell` runs it, and writes each part as soon as
//! it is known; `tell_at_once` writes nothing before all is known, and `say` writes a text that needs no input. It
//! stands on xl_lines. Its one contract is `Keeps`.
#![tactic(auto)]

mod command;
mod telling;

pub use command::TextCommand;
pub use telling::{say, tell, tell_at_once};
