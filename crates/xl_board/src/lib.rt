//! A board: one text that stands for whoever reads it, until the next one takes its place. A node that runs says on one
//! how it is, and opens it by its path.
//!
//! It stands on xl_base and xl_io. Its one contract: a call answers `Failed` only if the count rose in that call. What
//! stands then is the text that was handed over, or, if the call failed, that text or the former one, and never a part.
#![tactic(auto)]

mod board;
mod boards;
mod memory;
mod path;

pub use board::Board;
pub use boards::{Boards, NotOpened};
pub use memory::{MemBoard, MemBoards};
pub use path::FilePath;
