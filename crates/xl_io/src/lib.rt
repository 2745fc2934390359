//! The outside as the program sees it: a source that bytes come from, a sink that bytes go to, and a keeper of the
//! last issued sequence, each with a count of its faults. Sources and sinks are over the streams of the system and in
//! memory, keepers in memory.
//!
//! It stands on xl_base. Its one contract: a call answers `Failed` only if the count rose in that call, so no code
//! above can invent a fault. If content is known, what was read, what is held and what a stop may leave is exact.
#![tactic(auto)]

mod failed;
mod failures;
mod keeper;
mod sink;
mod source;

pub use failed::Failed;
pub use keeper::Keeper;
pub use keeper::plain::PlainKeeper;
pub use keeper::scripted::MemKeeper;
pub use sink::memory::{Discard, MemSink};
pub use sink::standard::StdSink;
pub use sink::{Sink, Wrote, write_all};
pub use source::memory::{MemSource, PlainSource};
pub use source::standard::StdSource;
pub use source::{Piece, Source};
