use xl_base::{Secs, SetId};
use xl_wire::Proposal;

/// What a heartbeat learns of the validations that the node holds.
#[derive(Clone, Copy, PartialEq, Eq)]
pub struct Seen {
    /// The members other than us whose current validation names the previous ledger.
    pub validated: u32,
    /// The votes for ledgers that build on the previous one, directly or not.
    pub finished: u32,
}

/// What a proposing node sends: our set, if it goes with the proposal, and then the proposal.
#[derive(Clone, Copy, PartialEq, Eq)]
pub struct Said {
    pub proposal: Proposal,
    pub with_set: bool,
}

/// What a heartbeat did.
#[derive(Clone, Copy, Debug, PartialEq, Eq)]
pub enum HeartbeatKind {
    Nothing,
    /// It closed the round's open phase.
    Closed,
    /// It renewed our position, and the round goes on.
    Updated,
    /// The next ledger is agreed on; the members may have moved on without us.
    Ready { moved_on: bool },
}

/// What a heartbeat did, and what is to be sent.
#[derive(Clone, Copy, PartialEq, Eq)]
pub struct Heartbeat {
    pub kind: HeartbeatKind,
    pub said: Option<Said>,
}

/// What a round agreed on: the set of the next ledger, our close time, 0 if none was chosen, and the resolution.
#[derive(Clone, Copy, PartialEq, Eq)]
pub struct Agreed {
    pub set: SetId,
    pub close: Secs,
    pub resolution: u8,
}
