//! Sessions with the members: one connection's bytes become calls of the store, and what the store has for the member
//! is written to the connection.
//!
//! A session greets the member. In each turn it asks whether the node is to stop, writes all that waits for the
//! member if the link says that its peer may be spoken to, and reads once. Each frame that this read made whole is
//! handed to the core, between two passes of a gate that lets a test hold it, and the link hears how it was judged.
//! Serving a member is one session after the other, over one link.
//!
//! It stands on the store of xl_store, the links of xl_links and the feed of xl_wire. Its one contract: a session's
//! calls, which stand in the store's history at the places that its pass gained, are those of its steps. What its
//! reads gave is what the link had, what its drains gave was written, and each end has its cause.
#![tactic(auto)]

mod asking;
mod draining;
mod ends;
mod handing;
mod host;
mod judging;
mod reading;
mod sending;
mod serving;
mod talking;

pub use ends::{End, Served};
pub use host::Host;
pub use serving::{attend, serve};
pub use talking::{session, talk};
