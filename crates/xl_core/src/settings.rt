use xl_base::NodeNo;
use xl_lists::List;
use xl_tags::Keys;

/// What a node is opened with.
#[derive(Drop)]
pub struct Settings {
    /// The node's number.
    pub me: NodeNo,
    /// The list of the members that it hears.
    pub list: List,
    /// The keys that it shares with others, among them one for each other listed member. Who has a key is a peer.
    pub keys: Keys,
    /// How many ledgers it may know, the root among them.
    pub limit: u32,
    /// Whether it is a validator. One that isn't observes: it proposes no position, and validates no ledger.
    pub validating: bool,
    /// The version of its validations, 1 or 2. One of version 2 tells what the node last reported.
    pub speak: u8,
}
