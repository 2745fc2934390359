ghost use Rattle.std.specs.Prelude.{◌≡◌, ◌<◌, List, length, Some};
ghost use Rattle.xl_ledger.specs.Chains.{AreLedgers, seq_at};
ghost use Rattle.xl_ledger.specs.Votes.{is_on_chain};
ghost use Rattle.xl_trie.specs.Nodes.{spans};
ghost use Rattle.xl_trie.specs.Places.{IsPlace};
ghost use Rattle.xl_trie.specs.Tries.{IsTrie};
ghost use Rattle.xl_trie.specs.Ways.{OnWay, IsBegin};
ghost use Rattle.xl_ledger.specs.declared.vote.Vote.{Vote};

use crate::kids::kid_from;
use crate::node::{Node, Span, span_at};
use xl_ledger::{LedgerNo, Registry};
use xl_pool::{Name, Pool};

/// The deepest span that ends on the way to a ledger, and the child into whose span the way goes from there.
#[derive(Clone, Copy)]
pub(crate) struct Place {
    pub(crate) at: Name,
    pub(crate) within: Option<Name>,
}

/// Whether a ledger stands on the chain of another.
pub(crate) fn is_on_chain(registry: &Registry, ledger: LedgerNo, of: LedgerNo) -> bool
    requires ledger { ledger < length registry.now.headers }
    requires of { of < length registry.now.headers }
    ensures { result ≡ is_on_chain registry.now.headers ledger of }
{
    let seq = registry.seq_of(ledger);
    if registry.seq_of(of) < seq {
        return false;
    }
    registry.walk().ancestor(of, seq) == ledger
}

/// The ledger with which a span begins that hangs at a ledger and whose way goes to another.
pub(crate) fn begin_of(registry: &Registry, ledger: LedgerNo, over: LedgerNo) -> LedgerNo
    requires known { ledger < length registry.now.headers }
    requires over { over < length registry.now.headers }
    requires below { seq_at registry.now.headers over < seq_at registry.now.headers ledger }
    ensures begin { IsBegin registry.now.headers ledger over result }
    ensures known { result < length registry.now.headers }
{
    let seq = registry.seq_of(over);
    registry.walk().ancestor(ledger, seq + 1)
}

/// The place of a ledger, from a node on its way on.
pub(crate) fn seek(
    nodes: &Pool<Node>,
    registry: &Registry,
    to: LedgerNo,
    at: Name,
    span: Span,
) -> Place
    requires trie { (votes : List Vote) × IsTrie registry.now.headers votes nodes.now }
    requires known { to < length registry.now.headers }
    requires here { spans nodes.now at ≡ Some span }
    requires on { OnWay registry.now.headers span.ledger to }
    ensures ledgers { AreLedgers registry.now.headers }
    ensures place { IsPlace registry.now.headers (spans nodes.now) to result }
{
    let seq = registry.seq_of(span.ledger);
    if registry.seq_of(to) <= seq {
        return Place { at, within: None };
    }
    let next = begin_of(registry, to, span.ledger);
    let Some(name) = kid_from(nodes, at, next) else {
        return Place { at, within: None }
    };
    let child = span_at(nodes, name);
    if is_on_chain(registry, child.ledger, to) {
        seek(nodes, registry, to, name, child)
    } else {
        Place {
            at,
            within: Some(name),
        }
    }
}
