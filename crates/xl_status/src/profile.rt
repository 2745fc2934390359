use xl_base::{Millis, NodeNo};

/// What a node is run with, beside what its core tells. No key is in it.
#[derive(Clone, Copy, PartialEq, Eq)]
pub struct Profile {
    /// The node's number.
    pub me: NodeNo,
    pub validating: bool,
    /// The version of its validations.
    pub speak: u8,
    /// How many turns its store may take.
    pub turns: u64,
    pub heartbeat_ms: Millis,
    /// How long it is to run, without an end if that is 0.
    pub run_ms: Millis,
}
