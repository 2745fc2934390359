ghost use Rattle.std.specs.Prelude.{◌≡◌, ◌<◌, ℕ, List, ◌∷◌, length, Option, Some, IsSome, IfSome};
ghost use Rattle.xl_pool.specs.declared.name.Name.{Name};
ghost use Rattle.xl_trie.specs.declared.node.Span.{Span};
ghost use Rattle.xl_trie.specs.Nodes.{spans, IsKid, AllKids};
ghost use Rattle.xl_trie.specs.Leading.{leads, lead, IsBestSoFar, IsBest, BeginsAt};
ghost use Rattle.xl_trie.specs.Tries.{AreLinked};

use crate::node::{Node, Span, is_named, node_at, span_at};
use xl_ledger::{LedgerNo, Walk};
use xl_pool::{Name, Pool};

/// Whether a span leads another: it has more votes, or as many and its first ledger the greater id.
fn leads(walk: &Walk<'_>, a: &Span, b: &Span) -> bool
    requires a { a.now.first < length walk.now.ledgers.headers }
    requires b { b.now.first < length walk.now.ledgers.headers }
    ensures { result ≡ leads walk.now.ledgers.headers a.now b.now }
{
    let by_votes = a.branch.cmp(&b.branch);
    by_votes
        .then(walk.id_at(a.first).cmp(&walk.id_at(b.first)))
        .is_gt()
}

/// The best so far, if one more child is looked at.
fn better(
    nodes: &Pool<Node>,
    walk: &Walk<'_>,
    out: &Option<Name>,
    best: Option<Name>,
    name: Name,
) -> Option<Name>
    requires first { (a : Name) (s : Span) → spans nodes.now a ≡ Some s
        → s.first < length walk.now.ledgers.headers }
    requires stands { IsSome (spans nodes.now name) }
    requires best { IfSome best (λ b. IsSome (spans nodes.now b)) }
    ensures stands { IfSome result (λ b. IsSome (spans nodes.now b)) }
    ensures best { (a : Name) (s : Span) (rest : List Name) → IsKid (spans nodes.now) a name s
        → IsBestSoFar walk.now.ledgers.headers (spans nodes.now) a out.now (name ∷ rest) best
        → IsBestSoFar walk.now.ledgers.headers (spans nodes.now) a out.now rest result }
{
    if is_named(out, name) {
        return best;
    }
    let Some(old) = best else { return Some(name) };
    if leads(walk, &span_at(nodes, name), &span_at(nodes, old)) {
        Some(name)
    } else {
        best
    }
}

/// The child that no other one leads, except the one that is left out.
pub(crate) fn best_kid(
    nodes: &Pool<Node>,
    walk: &Walk<'_>,
    of: Name,
    out: Option<Name>,
) -> Option<Name>
    requires linked { AreLinked walk.now.ledgers.headers (spans nodes.now) }
    requires kids { AllKids nodes.now }
    requires stands { IsSome (spans nodes.now of) }
    ensures stands { IfSome result (λ b. IsSome (spans nodes.now b)) }
    ensures best { IsBest walk.now.ledgers.headers (spans nodes.now) of out result }
{
    let mut at = node_at(nodes, of).child;
    let mut best = None;
    // No node has more children than the nodes are many.
    for _ in 0..nodes.live() {
        let Some(name) = at else { return best };
        best = better(nodes, walk, &out, best, name);
        at = node_at(nodes, name).sibling;
    }
    best
}

/// By how many votes a span is ahead of the second, with one more if it has the greater id.
pub(crate) fn lead(walk: &Walk<'_>, best: &Span, second: Option<Span>) -> u64
    requires best { best.now.first < length walk.now.ledgers.headers }
    requires second { IfSome second (λ s. s.first < length walk.now.ledgers.headers) }
    ensures { result ≡ lead walk.now.ledgers.headers best.now second }
{
    match second {
        None => best.branch as u64,
        Some(second) => {
            let ahead = best.branch.saturating_sub(second.branch) as u64;
            let by_ids = walk.id_at(best.first).cmp(&walk.id_at(second.first));
            if by_ids.is_gt() { ahead + 1 } else { ahead }
        }
    }
}

/// The child whose span begins with this ledger.
pub(crate) fn kid_from(nodes: &Pool<Node>, of: Name, first: LedgerNo) -> Option<Name>
    requires kids { AllKids nodes.now }
    requires stands { IsSome (spans nodes.now of) }
    ensures { BeginsAt (spans nodes.now) of first result }
{
    let mut at = node_at(nodes, of).child;
    for _ in 0..nodes.live() {
        let Some(name) = at else { return None };
        let node = node_at(nodes, name);
        if node.span.first == first {
            return Some(name);
        }
        at = node.sibling;
    }
    None
}
