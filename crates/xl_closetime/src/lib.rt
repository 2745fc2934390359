//! Close times: how coarse they are, how one is rounded, and which one the members agree on.
//!
//! Members' clocks differ, so a ledger closes at a time that is rounded to the resolution in force, and a round takes
//! the time that most positions name.
//!
//! It stands on xl_base alone, and no call takes memory. Its one contract: `choose_close` gives the last time, in
//! rising order, that occurs at least as often as is needed and at least as often as every time chosen before it.
#![tactic(auto)]

mod choice;
mod resolution;
mod rounding;

pub use choice::{Choice, choose_close, needed};
pub use resolution::next_resolution;
pub use rounding::{effective, round_close};
