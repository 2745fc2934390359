// The members that rolls may name.
ghost use Rattle.std.specs.Prelude.{◌≡◌, ◌≤◌, ◌==◌, ◌||◌};
ghost use Rattle.xl_base.specs.Members.{greatest_node_no};
ghost use Rattle.xl_settings.specs.Peers.{is_peer};
ghost use Rattle.xl_validator.specs.Openings.{nameable};

use xl_base::{GREATEST_NODE_NO, NodeNo};
use xl_publish::RollMembers;
use xl_settings::Peers;

/// The members that a roll may name: the node and its peers.
pub(crate) fn nameable(me: NodeNo, peers: &Peers) -> RollMembers
    ensures { result ≡ nameable me peers.now }
{
    let mut members = RollMembers::none();
    for number in 1..GREATEST_NODE_NO + 1 {
        if may_be_named(me, peers, member(number)) {
            members.push(number);
        }
    }
    members
}

fn may_be_named(me: NodeNo, peers: &Peers, number: NodeNo) -> bool
    ensures { result ≡ (number == me || is_peer peers.now number) }
{
    number == me || peers.has(number)
}

/// The member of a number that one may have.
fn member(number: u32) -> NodeNo
    requires least { 1 ≤ number }
    requires greatest { number ≤ greatest_node_no }
    ensures { result ≡ number }
{
    NodeNo::new(number).unwrap()
}
