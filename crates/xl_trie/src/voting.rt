ghost use Rattle.std.specs.Prelude.{◌≡◌, ◌≢◌, ◌+◌, ◌<◌, ℕ, List, length, Some, None, IsSome};
ghost use Rattle.xl_ledger.specs.Chains.{AreLedgers};
ghost use Rattle.xl_ledger.specs.declared.vote.Vote.{Vote};
ghost use Rattle.xl_pool.specs.Pools.{live};
ghost use Rattle.xl_pool.specs.declared.name.Name.{Name};
ghost use Rattle.xl_trie.specs.Changing.{IsSplit};
ghost use Rattle.xl_trie.specs.Nodes.{spans, IsKid, AllKids, AllHang};
ghost use Rattle.xl_trie.specs.Places.{IsPlace};
ghost use Rattle.xl_trie.specs.Tries.{IsTrie, IsTrieBut, StayTrie, IsHalfNeeded, IsRoot};
ghost use Rattle.xl_trie.specs.declared.node.Span.{Span};

use crate::linking::{hang, take, unhang};
use crate::node::{Node, Span, span_at};
use crate::seeking::{Place, begin_of};
use xl_ledger::{LedgerNo, Registry};
use xl_pool::{Name, Pool};

/// A child's span is cut in two. The front, up to a ledger inside, gets a new name.
fn split(nodes: &mut Pool<Node>, of: Name, kid: Name, ledger: LedgerNo, begin: LedgerNo) -> Name
    requires room { live nodes.old < length nodes.old }
    requires kids { AllKids nodes.old }
    requires hang { AllHang (spans nodes.old) }
    requires stands { IsSome (spans nodes.old of) }
    requires kid { (t : Span) × IsKid (spans nodes.old) of kid t }
    requires other { of ≢ kid }
    ensures split { (t : Span) → IsKid (spans nodes.old) of kid t
        → IsSplit (spans nodes.old) (spans nodes.new) of result kid t ledger begin }
    ensures kids { AllKids nodes.new }
    ensures live { live nodes.new ≡ live nodes.old + 1 }
    ensures slots { length nodes.new ≡ length nodes.old }
{
    let under = span_at(nodes, kid);
    let front = Span {
        ledger,
        first: under.first,
        parent: None,
        tip: 0,
        branch: under.branch,
    };
    let name = take(nodes, front);
    unhang(nodes, of, kid);
    hang(nodes, of, name, under.first);
    hang(nodes, name, kid, begin);
    name
}

/// The span that the way to a ledger enters is split where it leaves it.
fn fork(
    nodes: &mut Pool<Node>,
    registry: &Registry,
    place: Place,
    kid: Name,
    ledger: LedgerNo,
) -> Name
    requires ledgers { AreLedgers registry.now.headers }
    requires trie { (votes : List Vote) × IsTrie registry.now.headers votes nodes.old }
    requires known { ledger < length registry.now.headers }
    requires place { IsPlace registry.now.headers (spans nodes.old) ledger place }
    requires within { place.within ≡ Some kid }
    requires room { live nodes.old < length nodes.old }
    ensures trie { StayTrie registry.now.headers nodes.old None nodes.new (Some result) }
    ensures place { IsPlace registry.now.headers (spans nodes.new) ledger (record { at = result; within = None }) }
    ensures half { IsHalfNeeded (spans nodes.new) result }
    ensures root { (root : Name) → IsRoot (spans nodes.old) root → IsRoot (spans nodes.new) root }
    ensures live { live nodes.new ≡ live nodes.old + 1 }
    ensures slots { length nodes.new ≡ length nodes.old }
{
    let under = span_at(nodes, kid);
    let end = registry.walk().common(under.ledger, ledger);
    let begin = begin_of(registry, under.ledger, end);
    split(nodes, place.at, kid, end, begin)
}

/// The node of a ledger whose way enters no span below this one: it, or a new one that hangs there.
fn end_at(nodes: &mut Pool<Node>, registry: &Registry, at: Name, ledger: LedgerNo) -> Name
    requires ledgers { AreLedgers registry.now.headers }
    requires trie { (votes : List Vote) × IsTrieBut registry.now.headers votes nodes.old (Some at) }
    requires known { ledger < length registry.now.headers }
    requires place { IsPlace registry.now.headers (spans nodes.old) ledger (record { at = at; within = None }) }
    requires half { IsHalfNeeded (spans nodes.old) at }
    requires room { live nodes.old < length nodes.old }
    ensures trie { StayTrie registry.now.headers nodes.old (Some at) nodes.new (Some result) }
    ensures there { (s : Span) × (spans nodes.new result ≡ Some s) × (s.ledger ≡ ledger) }
    ensures root { (root : Name) → IsRoot (spans nodes.old) root → IsRoot (spans nodes.new) root }
    ensures slots { length nodes.new ≡ length nodes.old }
{
    let over = span_at(nodes, at);
    if over.ledger == ledger {
        return at;
    }
    let first = begin_of(registry, ledger, over.ledger);
    let leaf = Span {
        ledger,
        first,
        parent: None,
        tip: 0,
        branch: 0,
    };
    let name = take(nodes, leaf);
    hang(nodes, at, name, first);
    name
}

/// The node of a ledger from its place: one that was there, or one that comes; where its way leaves a span inside,
/// another one comes there.
pub(crate) fn come(
    nodes: &mut Pool<Node>,
    registry: &Registry,
    place: Place,
    ledger: LedgerNo,
) -> Name
    requires ledgers { AreLedgers registry.now.headers }
    requires trie { (votes : List Vote) × IsTrie registry.now.headers votes nodes.old }
    requires known { ledger < length registry.now.headers }
    requires place { IsPlace registry.now.headers (spans nodes.old) ledger place }
    requires room { live nodes.old + 1 < length nodes.old }
    ensures trie { StayTrie registry.now.headers nodes.old None nodes.new (Some result) }
    ensures there { (s : Span) × (spans nodes.new result ≡ Some s) × (s.ledger ≡ ledger) }
    ensures root { (root : Name) → IsRoot (spans nodes.old) root → IsRoot (spans nodes.new) root }
    ensures slots { length nodes.new ≡ length nodes.old }
{
    let Some(kid) = place.within else {
        return end_at(nodes, registry, place.at, ledger)
    };
    let at = fork(nodes, registry, place, kid, ledger);
    end_at(nodes, registry, at, ledger)
}
