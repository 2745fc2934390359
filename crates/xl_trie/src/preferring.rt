ghost use Rattle.std.specs.Prelude.{◌≡◌, ◌+◌, ◌<◌, ◌≤◌, length, Some, IsSome};
ghost use Rattle.xl_ledger.specs.Chains.{AreLedgers};
ghost use Rattle.xl_ledger.specs.Votes.{AreKnown, uncommitted};
ghost use Rattle.xl_ledger.specs.Walks.{GoesOn};
ghost use Rattle.xl_trie.specs.Leading.{GoesTo, EndsAt};
ghost use Rattle.xl_trie.specs.Nodes.{spans};
ghost use Rattle.xl_trie.specs.Tries.{IsTrie};

use crate::kids::{best_kid, lead};
use crate::node::{Node, Span, span_at};
use xl_base::Seq;
use xl_ledger::{LedgerNo, Vote, Walk};
use xl_pool::{Name, Pool};

/// How many votes are for an earlier sequence than this, or than the largest issued.
fn uncommitted(votes: &[Vote], walk: &Walk<'_>, seq: Seq, largest: Seq) -> usize
    requires { AreKnown walk.now.ledgers.headers votes.now }
    ensures { result ≡ uncommitted walk.now.ledgers.headers votes.now seq largest }
{
    let mut count = 0;
    for vote in votes {
        if walk.seq_of(vote.ledger) < seq.max(largest) {
            count += 1;
        }
    }
    count
}

/// The child on the way to which the votes go on, if they do.
fn goes_to(
    nodes: &Pool<Node>,
    votes: &[Vote],
    walk: &Walk<'_>,
    largest: Seq,
    at: Name,
    span: &Span,
) -> Option<Name>
    requires ledgers { AreLedgers walk.now.ledgers.headers }
    requires trie { IsTrie walk.now.ledgers.headers votes.now nodes.now }
    requires here { spans nodes.now at ≡ Some span.now }
    ensures { GoesTo walk.now.ledgers.headers votes.now (spans nodes.now) largest at span.now.ledger result }
{
    let Some(best) = best_kid(nodes, walk, at, None) else {
        return None
    };
    let child = span_at(nodes, best);
    let ahead = match best_kid(nodes, walk, at, Some(best)) {
        None => lead(walk, &child, None),
        Some(second) => lead(walk, &child, Some(span_at(nodes, second))),
    };
    if ahead > uncommitted(votes, walk, walk.seq_of(child.first), largest) as u64 {
        Some(best)
    } else {
        None
    }
}

/// The last sequence of a span at which more votes are for it than are uncommitted, by halves.
fn last_stop(votes: &[Vote], walk: &Walk<'_>, largest: Seq, low: Seq, high: Seq, branch: u32) -> Seq
    requires known { AreKnown walk.now.ledgers.headers votes.now }
    requires order { low < high }
    requires begins { uncommitted walk.now.ledgers.headers votes.now low largest < branch }
    requires ends { branch ≤ uncommitted walk.now.ledgers.headers votes.now high largest }
    ensures low { low ≤ result }
    ensures high { result < high }
    ensures more { uncommitted walk.now.ledgers.headers votes.now result largest < branch }
    ensures few { branch ≤ uncommitted walk.now.ledgers.headers votes.now (result + 1) largest }
{
    if high - low == 1 {
        return low;
    }
    let middle = low + (high - low) / 2;
    if uncommitted(votes, walk, middle, largest) < branch as usize {
        last_stop(votes, walk, largest, middle, high, branch)
    } else {
        last_stop(votes, walk, largest, low, middle, branch)
    }
}

/// The ledger that the votes prefer, from a node on: span by span without a step, and one ancestor at the end.
pub(crate) fn prefer_from(
    nodes: &Pool<Node>,
    votes: &[Vote],
    walk: &mut Walk<'_>,
    largest: Seq,
    at: Name,
    span: Span,
) -> LedgerNo
    requires trie { IsTrie walk.old.ledgers.headers votes.now nodes.now }
    requires here { spans nodes.now at ≡ Some span }
    ensures value { EndsAt walk.old.ledgers.headers votes.now largest span.ledger result }
    ensures known { result < length walk.old.ledgers.headers }
    ensures goes_on { GoesOn walk.old walk.new }
    ensures steps { walk.new.taken ≤ walk.old.taken + 18 }
{
    let seq = walk.seq_of(span.ledger);
    let Some(next) = goes_to(nodes, votes, walk, largest, at, &span) else {
        return span.ledger
    };
    let child = span_at(nodes, next);
    let end = walk.seq_of(child.ledger);
    if uncommitted(votes, walk, end, largest) < child.branch as usize {
        return prefer_from(nodes, votes, walk, largest, next, child);
    }
    let stop = last_stop(votes, walk, largest, seq + 1, end, child.branch);
    walk.ancestor(child.ledger, stop)
}
