ghost use Rattle.std.specs.Prelude.{◌≡◌, ◌↔◌, Some, None, IsSome, IsTrue};
ghost use Rattle.xl_pool.specs.Pools.{get};
ghost use Rattle.xl_trie.specs.Nodes.{spans};

use xl_ledger::LedgerNo;
use xl_pool::{Name, Pool};

/// The ledgers after those of the parent's span, up to one. For all of them but the last, no vote is, and none leaves
/// them by another child.
#[derive(Clone, Copy)]
pub(crate) struct Span {
    /// The last ledger of the span.
    pub(crate) ledger: LedgerNo,
    /// The first ledger of the span; the root has itself here.
    pub(crate) first: LedgerNo,
    pub(crate) parent: Option<Name>,
    /// How many votes are for the last ledger.
    pub(crate) tip: u32,
    /// How many votes are for it or one below it.
    pub(crate) branch: u32,
}

/// A span with the names that lead to its children: that of the first, and from each to the next.
#[derive(Clone, Copy)]
pub(crate) struct Node {
    pub(crate) span: Span,
    pub(crate) child: Option<Name>,
    pub(crate) sibling: Option<Name>,
}

/// The node of a name that has one.
pub(crate) fn node_at(nodes: &Pool<Node>, name: Name) -> Node
    requires { IsSome (spans nodes.now name) }
    ensures node { get nodes.now name ≡ Some result }
    ensures span { spans nodes.now name ≡ Some result.span }
{
    match nodes.get(name) {
        Some(node) => *node,
        None => unreachable!(),
    }
}

/// The span of a name that has one.
pub(crate) fn span_at(nodes: &Pool<Node>, name: Name) -> Span
    requires { IsSome (spans nodes.now name) }
    ensures { spans nodes.now name ≡ Some result }
{
    node_at(nodes, name).span
}

/// Whether this is the name.
pub(crate) fn is_named(some: &Option<Name>, name: Name) -> bool
    ensures { IsTrue result ↔ (some.now ≡ Some name) }
{
    match some {
        Some(other) => *other == name,
        None => false,
    }
}

/// The root's node, for which no votes are yet.
pub(crate) fn root_node() -> Node
    ensures child { result.child ≡ None }
    ensures span { result.span ≡ record { ledger = 0; first = 0; parent = None; tip = 0; branch = 0 } }
{
    Node {
        span: Span {
            ledger: LedgerNo::root(),
            first: LedgerNo::root(),
            parent: None,
            tip: 0,
            branch: 0,
        },
        child: None,
        sibling: None,
    }
}
