ghost use Rattle.std.specs.Prelude.{◌≡◌, ◌≢◌, length, Some, None, IsSome};
ghost use Rattle.xl_pool.specs.declared.name.Name.{Name};
ghost use Rattle.xl_trie.specs.Changing.{IsMerged};
ghost use Rattle.xl_trie.specs.Nodes.{spans, IsKid, AllKids};
ghost use Rattle.xl_trie.specs.Tries.{IsSomeTrie, StayTries, IsHalfNeeded, IsRoot};
ghost use Rattle.xl_trie.specs.declared.node.Span.{Span};

use crate::linking::{give, hang, unhang};
use crate::node::{Node, node_at, span_at};
use xl_pool::{Name, Pool};

/// A node without votes of its own and without children goes, except the root. Which node may have to be merged then:
/// the one above it, or the node itself where it stays.
fn drop_empty(nodes: &mut Pool<Node>, name: Name) -> Name
    requires trie { IsSomeTrie nodes.old (Some name) }
    requires stands { IsSome (spans nodes.old name) }
    ensures trie { StayTries nodes.old (Some name) nodes.new (Some result) }
    ensures half { IsHalfNeeded (spans nodes.new) result }
    ensures root { (root : Name) → IsRoot (spans nodes.old) root → IsRoot (spans nodes.new) root }
    ensures slots { length nodes.new ≡ length nodes.old }
{
    let node = node_at(nodes, name);
    let Some(over) = node.span.parent else {
        return name
    };
    if node.span.tip > 0 || node.child.is_some() {
        return name;
    }
    unhang(nodes, over, name);
    give(nodes, name);
    over
}

/// A node goes, and its one child takes its place. That one's span begins with the ledger with which the node's began.
fn lift(nodes: &mut Pool<Node>, of: Name, name: Name, kid: Name)
    requires kids { AllKids nodes.old }
    requires of { IsSome (spans nodes.old of) }
    requires name { (s : Span) × IsKid (spans nodes.old) of name s }
    requires kid { (t : Span) × IsKid (spans nodes.old) name kid t }
    requires other { of ≢ name }
    requires apart { name ≢ kid }
    requires below { of ≢ kid }
    ensures merged { (s t : Span) → IsKid (spans nodes.old) of name s → IsKid (spans nodes.old) name kid t
        → IsMerged (spans nodes.old) (spans nodes.new) of name kid s t }
    ensures kids { AllKids nodes.new }
    ensures slots { length nodes.new ≡ length nodes.old }
{
    let first = span_at(nodes, name).first;
    unhang(nodes, name, kid);
    unhang(nodes, of, name);
    hang(nodes, of, kid, first);
    give(nodes, name);
}

/// A node without votes of its own and with one child is merged with it, except the root.
fn merge(nodes: &mut Pool<Node>, name: Name)
    requires trie { IsSomeTrie nodes.old (Some name) }
    requires half { IsHalfNeeded (spans nodes.old) name }
    ensures trie { StayTries nodes.old (Some name) nodes.new None }
    ensures root { (root : Name) → IsRoot (spans nodes.old) root → IsRoot (spans nodes.new) root }
    ensures slots { length nodes.new ≡ length nodes.old }
{
    let node = node_at(nodes, name);
    let Some(over) = node.span.parent else { return };
    let Some(kid) = node.child else { return };
    if node.span.tip == 0 && node_at(nodes, kid).sibling.is_none() {
        lift(nodes, over, name, kid);
    }
}

/// The node goes if no vote needs it any more, and so does the one above it then.
pub(crate) fn prune(nodes: &mut Pool<Node>, name: Name)
    requires trie { IsSomeTrie nodes.old (Some name) }
    requires stands { IsSome (spans nodes.old name) }
    ensures trie { StayTries nodes.old (Some name) nodes.new None }
    ensures root { (root : Name) → IsRoot (spans nodes.old) root → IsRoot (spans nodes.new) root }
    ensures slots { length nodes.new ≡ length nodes.old }
{
    let last = drop_empty(nodes, name);
    merge(nodes, last);
}
