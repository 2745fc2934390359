//! A schedule that runs: what was read of it so far, who is declared, and from the first event on the world.
//!
//! It is what the commands that run schedules have in common, and the lines that they all write: why a line is refused,
//! and ids by the names that the schedule declares. It stands on xl_lines, xl_sched and xl_world. Its one contract:
//! what is known after a line is a function of what was known before and of the line.
#![tactic(auto)]

mod limits;
mod names;
mod running;

pub use limits::LIMITS;
pub use names::push_id;
pub use running::{DEFAULT_LIMIT, DEFAULT_SPEAK, Running};
pub use xl_sched::{beyond, push_bad};
