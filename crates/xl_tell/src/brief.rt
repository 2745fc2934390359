// Whether what happens at a node may change little of it.
ghost use Rattle.std.specs.Prelude.{◌≡◌, ◌/◌, max, true, IfSome, IsTrue};
ghost use Rattle.xl_lists.specs.Lists.{IsValid, is_on};
ghost use Rattle.xl_noted.specs.Asking.{is_open as is_open_by};
ghost use Rattle.xl_rounds.specs.Positions.{count};
ghost use Rattle.xl_tell.specs.Before.{IsBrief};

use xl_base::{Millis, NodeNo};
use xl_core::Node;
use xl_noted::is_open;
use xl_trie::Trie;
use xl_world::World;

/// Whether the member is on the node's list, and the moment in the second of its time.
fn is_brief(node: &Node<Trie>, at: Millis, member: NodeNo) -> bool
    ensures listed { IsTrue result → is_on node.now.list.members member ≡ true }
    ensures within { IsTrue result → max node.now.time at / 1000 ≡ node.now.time / 1000 }
    ensures valid { IsValid node.now.list }
{
    let list = node.list();
    let _members = list.members();
    list.has(member) && node.time().max(at) / 1000 == node.time() / 1000
}

/// The node of a number, if it is there, and what it hears of the member at a moment changes nothing of the others.
pub(crate) fn brief_node<'a>(
    world: &'a World,
    number: NodeNo,
    at: Millis,
    member: NodeNo,
) -> Option<&'a Node<Trie>>
    ensures { IfSome result (λ node. IsBrief world.now number at member node.now) }
{
    let _reports = world.reports();
    let Some(core) = world.node(number) else {
        return None;
    };
    let node = core.node();
    if is_brief(node, at, member) {
        Some(node)
    } else {
        None
    }
}

/// Whether the moment is in the second of the node's time.
pub(crate) fn is_within(node: &Node<Trie>, at: Millis) -> bool
    ensures { IsTrue result → max node.now.time at / 1000 ≡ node.now.time / 1000 }
{
    node.time().max(at) / 1000 == node.time() / 1000
}

/// Whether a timer at that moment changes the node's round alone, in which no member has a position.
pub(crate) fn is_beat(node: &Node<Trie>, at: Millis) -> bool
    ensures opened { IsTrue result → is_open_by node.now.round.phase ≡ true }
    ensures nobody { IsTrue result → count node.now.round.positions ≡ 0 }
    ensures within { IsTrue result → max node.now.time at / 1000 ≡ node.now.time / 1000 }
{
    let round = node.round();
    is_open(round) && round.proposers() == 0 && is_within(node, at)
}
