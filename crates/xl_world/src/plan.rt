use xl_base::{Millis, NodeNo};
use xl_lists::List;

/// An honest node as it is declared.
#[derive(Drop)]
pub struct PlanNode {
    pub me: NodeNo,
    pub list: List,
    /// Whether it is a validator, or else observes.
    pub validating: bool,
    /// The moment at which it is opened, in milliseconds.
    pub moment: Millis,
}

/// A list that was in force at a node.
#[derive(Drop)]
pub struct InForce {
    pub node: NodeNo,
    pub list: List,
}

/// Who is in the world: the honest nodes, in the order in which they are declared, and the liars. Each node may know so
/// many ledgers, the root among them: 2 to 262,144; and the validations of each are of the version `speak`.
#[derive(Drop)]
pub struct Plan {
    pub nodes: Vec<PlanNode>,
    pub liars: Vec<NodeNo>,
    pub limit: u32,
    pub speak: u8,
}
