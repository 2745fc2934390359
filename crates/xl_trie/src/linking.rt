ghost use Rattle.std.specs.Prelude.{◌≡◌, ◌≢◌, ◌+◌, ◌<◌, length, Some, None, IsSome, IfSome};
ghost use Rattle.xl_ledger.specs.declared.ledger_no.LedgerNo.{LedgerNo};
ghost use Rattle.xl_pool.specs.Pools.{get, live, Updates};
ghost use Rattle.xl_trie.specs.Nodes.{spans, Becomes, BecomesOf, AllKids, AllHang, IsBefore, LeadsNow, hung_at};
ghost use Rattle.xl_trie.specs.declared.node.Span.{Span};
ghost use Rattle.xl_trie.specs.declared.node.Node.{Node};

use crate::node::{Node, Span, is_named, node_at};
use xl_ledger::LedgerNo;
use xl_pool::{Name, Pool};

/// Writes the node of a name anew.
pub(crate) fn put(nodes: &mut Pool<Node>, name: Name, node: Node)
    requires { IsSome (spans nodes.old name) }
    ensures names { Updates nodes.old nodes.new name (Some node) }
    ensures live { live nodes.new ≡ live nodes.old }
    ensures slots { length nodes.new ≡ length nodes.old }
{
    match nodes.get_mut(name) {
        Some(held) => *held = node,
        None => unreachable!(),
    }
}

/// Takes an empty slot for a span that hangs nowhere yet.
pub(crate) fn take(nodes: &mut Pool<Node>, span: Span) -> Name
    requires room { live nodes.old < length nodes.old }
    requires kids { AllKids nodes.old }
    requires hang { AllHang (spans nodes.old) }
    requires free { span.parent ≡ None }
    ensures fresh { spans nodes.old result ≡ None }
    ensures spans { Becomes (spans nodes.old) (spans nodes.new) result (Some span) }
    ensures kids { AllKids nodes.new }
    ensures live { live nodes.new ≡ live nodes.old + 1 }
    ensures slots { length nodes.new ≡ length nodes.old }
{
    let node = Node {
        span,
        child: None,
        sibling: None,
    };
    match nodes.take(node) {
        Ok(name) => name,
        Err(_) => unreachable!(),
    }
}

/// Gives the slot back of a span that hangs nowhere.
pub(crate) fn give(nodes: &mut Pool<Node>, name: Name)
    requires kids { AllKids nodes.old }
    requires free { (s : Span) × (spans nodes.old name ≡ Some s) × (s.parent ≡ None) }
    ensures spans { Becomes (spans nodes.old) (spans nodes.new) name None }
    ensures kids { AllKids nodes.new }
    ensures slots { length nodes.new ≡ length nodes.old }
{
    match nodes.give(name) {
        Ok(_) => (),
        Err(_) => unreachable!(),
    }
}

/// The child of a node that leads to this one, or None if it is the first.
pub(crate) fn before(nodes: &Pool<Node>, of: Name, name: Name) -> Option<Name>
    requires kids { AllKids nodes.now }
    requires stands { IsSome (spans nodes.now of) }
    ensures { IsBefore nodes.now of name result }
{
    let mut at = node_at(nodes, of).child;
    for _ in 0..nodes.live() {
        let Some(next) = at else { return None };
        let node = node_at(nodes, next);
        if is_named(&node.sibling, name) {
            return Some(next);
        }
        at = node.sibling;
    }
    None
}

/// The child that led to another, or the node itself where that one was its first, leads elsewhere from now on.
fn lead_to(nodes: &mut Pool<Node>, of: Name, last: Option<Name>, to: Option<Name>)
    requires of { IsSome (spans nodes.old of) }
    requires last { IfSome last (λ b. IsSome (spans nodes.old b)) }
    ensures leads { LeadsNow nodes.old nodes.new of last to }
    ensures live { live nodes.new ≡ live nodes.old }
    ensures slots { length nodes.new ≡ length nodes.old }
{
    match last {
        None => {
            let mut node = node_at(nodes, of);
            node.child = to;
            put(nodes, of, node);
        }
        Some(name) => {
            let mut node = node_at(nodes, name);
            node.sibling = to;
            put(nodes, name, node);
        }
    }
}

/// A node that hangs nowhere becomes the first child of another. Its span begins with this ledger.
pub(crate) fn hang(nodes: &mut Pool<Node>, of: Name, name: Name, first: LedgerNo)
    requires kids { AllKids nodes.old }
    requires of { IsSome (spans nodes.old of) }
    requires free { (s : Span) × (spans nodes.old name ≡ Some s) × (s.parent ≡ None) }
    requires other { of ≢ name }
    ensures spans { BecomesOf (spans nodes.old) (spans nodes.new) name (λ s. hung_at s (Some of) first) }
    ensures kids { AllKids nodes.new }
    ensures live { live nodes.new ≡ live nodes.old }
    ensures slots { length nodes.new ≡ length nodes.old }
{
    let mut over = node_at(nodes, of);
    let mut node = node_at(nodes, name);
    node.span.parent = Some(of);
    node.span.first = first;
    node.sibling = over.child;
    over.child = Some(name);
    put(nodes, name, node);
    put(nodes, of, over);
}

/// A child hangs nowhere from now on: the link to it leads to the one after it.
pub(crate) fn unhang(nodes: &mut Pool<Node>, of: Name, name: Name)
    requires kids { AllKids nodes.old }
    requires of { IsSome (spans nodes.old of) }
    requires kid { (s : Span) × (spans nodes.old name ≡ Some s) × (s.parent ≡ Some of) }
    requires other { of ≢ name }
    ensures spans { BecomesOf (spans nodes.old) (spans nodes.new) name (λ s. hung_at s None s.first) }
    ensures kids { AllKids nodes.new }
    ensures live { live nodes.new ≡ live nodes.old }
    ensures slots { length nodes.new ≡ length nodes.old }
{
    let last = before(nodes, of, name);
    let mut node = node_at(nodes, name);
    lead_to(nodes, of, last, node.sibling);
    node.span.parent = None;
    node.sibling = None;
    put(nodes, name, node);
}
