//! The members that a node talks to, its clients, and the time, as the program sees them. There is a link to one member,
//! the door at which clients say lines, the hub that makes both, the clock, and a gate at which a test can hold a call.
//! Links, doors, hubs and clocks are in memory.
//!
//! It stands on xl_base and xl_io. Its one contract: a call answers `Failed` only if the count rose in that call. What
//! a link or a door gave, took and answered is exact if it is known, and a clock's moment is one that it may give.
#![tactic(auto)]

mod clock;
mod door;
mod gate;
mod hub;
mod link;
mod script;
mod told;

pub use clock::{Clock, MemClock};
pub use door::memory::MemDoor;
pub use door::{Arrival, Door};
pub use gate::{Gate, OpenGate};
pub use hub::plain::PlainHub;
pub use hub::scripted::{Asked, MemHub};
pub use hub::{Hub, Spare, Way};
pub use link::plain::PlainLink;
pub use link::scripted::MemLink;
pub use link::{Judgement, Link, LinkRead, Opening};
pub use script::LinkScript;
