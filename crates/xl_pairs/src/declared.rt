// The declared nodes.
ghost use Rattle.std.specs.Prelude.{◌≡◌, ◌==◌, find, option_copied};
ghost use Rattle.xl_pairs.specs.Texts.{list_in};

use xl_base::NodeNo;
use xl_lists::List;

/// An honest node and its trusted list.
#[derive(Drop)]
pub struct Node {
    pub me: NodeNo,
    pub list: List,
}

/// The list of the node of a number, if there is one.
pub fn list_in(nodes: &[Node], number: NodeNo) -> Option<&List>
    ensures { option_copied result ≡ list_in nodes.now number }
{
    match node_of(nodes, number) {
        Some(node) => Some(&node.list),
        None => None,
    }
}

fn node_of(nodes: &[Node], number: NodeNo) -> Option<&Node>
    ensures { option_copied result ≡ find (λ node. node.me == number) nodes.now }
{
    nodes.iter().find(|node| node.me == number)
}
