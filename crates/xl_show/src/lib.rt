//! `xl show`: what the frames of a stream say, a line each.
//!
//! `Frames` cuts a stream that comes in pieces into frames, by xl_wire, and writes each frame's line as soon as the
//! frame is whole; xl_lines' `drive` runs it over an input. It keeps at most the bytes of one frame. It stands on
//! xl_lines, xl_wire and xl_ledger. Its one contract: what `show` writes is a function of the bytes that the source
//! held.
#![tactic(auto)]

mod command;
mod frames;
mod limits;
mod reading;
mod texts;

pub use command::Show;
pub use frames::Frames;
pub use limits::MOST_BYTES;
