//! The kept number of a node, in a file: the keeper that outlives the process. And a board in a file, on which a node
//! says how it is, opened by its path; a new file for its journal; and a text that others replace, read whole.
//!
//! It stands on xl_base, xl_io and xl_board. Its one contract: a call answers `Failed` only if the count rose in that
//! call. Over a file that tells what it holds, a save that was answered with Ok leaves the number's text in place; one
//! that failed leaves that or the former text. A load answers the number whose text it is, 0 if there is no file, once
//! it has written that number's text beside. A board leaves in place what it was handed, or, if that failed, that or
//! the former text. A text of others is read with no count.
#![tactic(auto)]

mod board;
mod boards;
mod journals;
mod keeper;
mod lockable;
mod memory;
mod system;
mod text;
mod texts;
mod whole;

pub use board::FileBoard;
pub use boards::SystemBoards;
pub use keeper::FileKeeper;
pub use lockable::Lockable;
pub use memory::MemFile;
pub use system::SystemFile;
pub use texts::read_text;
pub use whole::WholeFile;
