//! The commands of `xl` over bytes in memory, for a host with no files and streams, as a web page.
//!
//! It stands on the crates of the commands. Its one contract: a command is handed its input and a room. What the
//! program would write of that input stands at the front of the room, if it fits there, and the status is the program's.
#![tactic(auto)]

mod handing;
mod making;
mod page;
mod telling;

pub use making::made;
pub use page::Page;
pub use telling::told;
