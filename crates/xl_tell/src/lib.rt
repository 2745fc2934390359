//! `xl tell`: a schedule is read line by line, and its events are written beside its report. Of each part of an event
//! the text has the frames that it sent, and what its node then holds and didn't hold before.
//!
//! The narrator is a machine for xl_lines, as the replayer of xl_replay is. It stands on xl_told and xl_held, whose
//! lines these are, and on xl_replay, whose lines stand among them. Its one contract: what `Tell` writes is a function
//! of the bytes that the source held, and `law_of_telling` says that without its own lines it is the report of `replay`.
#![tactic(auto)]

mod before;
mod brief;
mod command;
mod delivery;
mod echo;
mod events;
mod laws;
mod narrator;
mod nodes;
mod parts;
mod reported;
mod sent;

pub use command::Tell;
pub use laws::law_of_telling;
