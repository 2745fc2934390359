//! Queues of a fixed length for what waits to be sent or to be read. A push into a full one drops the oldest item and
//! counts it, so whoever pushes never waits and takes no memory. `Queue` has one reader. `Broadcast` has many, and
//! keeps what waits for them once: each has what a queue of its own would have.
//!
//! It stands on xl_base and the kit's `circular_buffer`. Its one contract: what was pushed and is neither held nor
//! taken was counted as lost.
#![tactic(auto)]

mod broadcast;
mod queue;

pub use broadcast::Broadcast;
pub use queue::Queue;
