//! The words of the command line: what they ask the program to do, and what it says of itself.
//!
//! It stands on the kit's `clap`. Its one contract: what `Command::of` answers is what `clap` gives for the words, and
//! if they are exactly those of a command, or ask for help or for the version, that is answered.
#![tactic(auto)]

mod command;
mod help;
mod program;
mod rounds;

pub use command::{Command, Telling, WordsFault};
pub use help::{push_help, push_version};
