ghost use Rattle.std.specs.Prelude.{◌≡◌, ◌+◌, ◌^◌, ◌<◌, List, length, Some, IsSome};
ghost use Rattle.xl_ledger.specs.Chains.{AreLedgers};
ghost use Rattle.xl_ledger.specs.declared.vote.Vote.{Vote};
ghost use Rattle.xl_pool.specs.declared.name.Name.{Name};
ghost use Rattle.xl_trie.specs.Counting.{changed_count, with_counts, AreRecounted, IsChange};
ghost use Rattle.xl_trie.specs.Nodes.{spans, BecomesOf, AllKids};
ghost use Rattle.xl_trie.specs.Tries.{AreLinked, IsTrieBut, IsRoot};
ghost use Rattle.xl_trie.specs.Ways.{OnWay};
ghost use Rattle.xl_trie.specs.declared.node.Span.{Span};

use crate::linking::put;
use crate::node::{Node, node_at, span_at};
use xl_ledger::Registry;
use xl_pool::{Name, Pool};

/// What a vote that comes, or one that goes, does to the counts.
#[derive(Clone, Copy)]
pub(crate) enum Change {
    OneMore,
    OneFewer,
}

impl Change {
    fn of(self, count: u32) -> u32
        requires { count + 1 < 2 ^ 32 }
        ensures { result ≡ changed_count self count }
    {
        match self {
            Change::OneMore => count + 1,
            Change::OneFewer => count.saturating_sub(1),
        }
    }
}

fn set_counts(nodes: &mut Pool<Node>, name: Name, tip: u32, branch: u32)
    requires kids { AllKids nodes.old }
    requires stands { IsSome (spans nodes.old name) }
    ensures spans { BecomesOf (spans nodes.old) (spans nodes.new) name (λ s. with_counts s tip branch) }
    ensures kids { AllKids nodes.new }
    ensures slots { length nodes.new ≡ length nodes.old }
{
    let mut node = node_at(nodes, name);
    node.span.tip = tip;
    node.span.branch = branch;
    put(nodes, name, node);
}

/// Changes the counts of votes at or below a span and all spans above it.
fn recount_up(nodes: &mut Pool<Node>, registry: &Registry, at: Name, change: Change)
    requires ledgers { AreLedgers registry.now.headers }
    requires linked { AreLinked registry.now.headers (spans nodes.old) }
    requires kids { AllKids nodes.old }
    requires small { (a : Name) (s o : Span) → spans nodes.old a ≡ Some s → spans nodes.old at ≡ Some o
        → OnWay registry.now.headers s.ledger o.ledger → s.branch + 1 < 2 ^ 32 }
    requires stands { IsSome (spans nodes.old at) }
    ensures counts { (s : Span) → spans nodes.old at ≡ Some s
        → AreRecounted registry.now.headers (spans nodes.old) (spans nodes.new) change s.ledger }
    ensures kids { AllKids nodes.new }
    ensures slots { length nodes.new ≡ length nodes.old }
{
    let span = span_at(nodes, at);
    set_counts(nodes, at, span.tip, change.of(span.branch));
    if let Some(over) = span.parent {
        recount_up(nodes, registry, over, change);
    }
}

/// A vote for the ledger of a span has come, or has gone.
pub(crate) fn recount(nodes: &mut Pool<Node>, registry: &Registry, at: Name, change: Change)
    requires ledgers { AreLedgers registry.now.headers }
    requires trie { (votes : List Vote) × IsTrieBut registry.now.headers votes nodes.old (Some at)
        × (length votes + 1 < 2 ^ 32) }
    requires stands { IsSome (spans nodes.old at) }
    ensures trie { (votes now : List Vote) (v : Vote) → IsTrieBut registry.now.headers votes nodes.old (Some at)
        → IsChange change v votes now → (s : Span) → spans nodes.old at ≡ Some s → s.ledger ≡ v.ledger
        → IsTrieBut registry.now.headers now nodes.new (Some at) }
    ensures root { (root : Name) → IsRoot (spans nodes.old) root → IsRoot (spans nodes.new) root }
    ensures there { (s : Span) → spans nodes.old at ≡ Some s
        → (n : Span) × (spans nodes.new at ≡ Some n) × (n.ledger ≡ s.ledger) }
    ensures slots { length nodes.new ≡ length nodes.old }
{
    let span = span_at(nodes, at);
    set_counts(nodes, at, change.of(span.tip), span.branch);
    recount_up(nodes, registry, at, change);
}
