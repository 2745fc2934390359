//! Which frames that journals show to be heard were given by their senders, by the drains in the senders' journals.
//!
//! It stands on xl_base and xl_wire, and reads no journal itself. Its one contract: a frame is given exactly if those
//! bytes stand among the frames that its sender's journals gave.
#![tactic(auto)]

mod by_entry;
mod cutting;
mod givers;
mod noted;
mod noted_frames;

pub use by_entry::{GiversByEntry, givers_by_entry};
pub use cutting::push_each;
pub use givers::{Giver, GiversByFrame, count_given, giver_of, givers_of};
pub use noted::Noted;
pub use noted_frames::NotedFrames;
