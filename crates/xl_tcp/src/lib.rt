//! The other members and the node's clients over TCP, and the time by the system's clock: the real forms of xl_links'
//! hub, link, door and clock.
//!
//! It stands on xl_base, xl_io, xl_wire and xl_links. Its one contract: a call answers `Failed` only if the count
//! rose in that call, whichever network is handed in; and a moment is never later than the greatest. What a peer sends,
//! what it takes, when, and who of several callers is served, is told by no clause. Nor is what a client says.
#![tactic(auto)]

mod address;
mod ahead;
mod allowance;
mod answers;
mod callers;
mod clients;
mod clock;
mod conduct;
mod connection;
mod door;
mod hub;
mod laws;
mod link;
mod moments;

pub use clock::SystemClock;
pub use door::TcpDoor;
pub use hub::TcpHub;
pub use laws::law_of_constants;
pub use link::TcpLink;
