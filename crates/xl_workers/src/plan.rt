use xl_base::{Bytes, NodeNo, TxId};
use xl_heartbeat::Pulse;
use xl_links::Way;
use xl_store::Retention;

/// What a run is to do.
#[derive(Drop)]
pub struct Plan {
    /// How many turns the store has in all, 1 to 2^62.
    pub turns: u64,
    /// Which entries the store keeps.
    pub retention: Retention,
    /// The ids that are submitted first, in order.
    pub submits: Vec<TxId>,
    /// The members that are served, each once. They are peers of the core.
    pub contacts: Vec<Contact>,
    /// The address at which clients hand transactions in, if they may.
    pub door: Option<Bytes>,
    /// When the heartbeat beats, until when, and which list it sets at each beat.
    pub pulse: Pulse,
}

/// A member that is to be served, and how it is reached.
#[derive(Drop)]
pub struct Contact {
    pub member: NodeNo,
    pub way: Way,
}
