//! A running validator: a worker for each peer and a heartbeat, side by side over one store.
//!
//! A run submits the ids of its plan, opens a link to each member, and serves each in a worker of its own beside the
//! heartbeat. A porter attends the door, if the plan has one. Each of them has a part of the store's first pass. When the
//! heartbeat has ended the run and all others have seen it, their passes are joined, the last reports are taken, and the
//! store is closed.
//!
//! It stands on the store of xl_store, the sessions of xl_peers, the door of xl_door, the heartbeat of xl_heartbeat and
//! the hub of xl_links.
//! Its one contract: the journal of the closed store is a legal history of the core that was handed in. Each place of
//! it is one of the submits, of the heartbeat, of the porter, of the one worker of a member, or of the last reports. The
//! output is the lines of what the reports handed out, and each end has its cause. What the store handed on of its journal
//! was recorded, all of it and in order.
#![tactic(auto)]

mod ends;
mod hiring;
mod joining;
mod linking;
mod living;
mod plan;
mod porter;
mod running;
mod starting;
mod submitting;
mod worker;

pub use ends::RunEnd;
pub use plan::{Contact, Plan};
pub use running::{Ran, node};
