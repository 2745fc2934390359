ghost use Rattle.std.specs.Prelude.{◌≡◌, ◌+◌, ◌*◌, ◌<◌, ◌≤◌, List, length, vec_len, vec_capacity, IsTrue};
ghost use Rattle.xl_ledger.specs.Chains.{AreLedgers};
ghost use Rattle.xl_ledger.specs.declared.header.Header.{Header};
ghost use Rattle.xl_ledger.specs.declared.vote.Vote.{Vote};
ghost use Rattle.xl_ledger.specs.Votes.{has_voted, without};
ghost use Rattle.xl_trie.specs.Counted.{spots};
ghost use Rattle.xl_trie.specs.Nodes.{In, spans};
ghost use Rattle.xl_trie.specs.Places.{IsPlace};
ghost use Rattle.xl_trie.specs.Tries.{GoesWith};

use crate::counting::{Change, recount};
use crate::node::{Node, root_node, span_at};
use crate::preferring::prefer_from;
use crate::pruning::prune;
use crate::seeking::{Place, is_on_chain, seek};
use crate::voting::come;
use std::alloc::Global;
use xl_base::{NodeNo, OutOfMemory, Seq};
use xl_ledger::{Branch, LedgerNo, Registry, Vote, Walk};
use xl_pool::{Name, Pool};

/// A list of votes, and the spans of the trie of their chains. All room is taken when it is opened.
#[derive(Drop)]
pub struct Trie {
    nodes: Pool<Node>,
    root: Name,
    votes: Vec<Vote>,
    members: u32,
    ghost few: { members ≤ 64 },
    ghost within: { vec_len votes ≤ members },
    ghost reserved: { members ≤ vec_capacity votes },
    ghost slots: { length nodes ≡ 2 * members + 1 },
}

/// The ledger that a member's vote is for.
fn ledger_of(votes: &[Vote], member: NodeNo) -> LedgerNo
    requires { IsTrue (has_voted votes.now member) }
    ensures { (v : Vote) × In v votes.now × (v.member ≡ member) × (v.ledger ≡ result) }
{
    for vote in votes {
        if vote.member == member {
            return vote.ledger;
        }
    }
    unreachable!()
}

fn drop_votes_of(votes: &mut Vec<Vote>, member: NodeNo)
    ensures without { votes.new.items ≡ without votes.old.items member }
    ensures fewer { vec_len votes.new ≤ vec_len votes.old }
    ensures room { vec_capacity votes.new ≡ vec_capacity votes.old }
{
    votes.retain(|vote| vote.member != member);
}

impl Trie {
    /// How many nodes there are: one for each spot, which are the root, each voted ledger, and the last common ledger
    /// of each two voted ledgers.
    pub fn nodes(&self) -> u32
        ensures spots { (ledgers : List Header) → AreLedgers ledgers
            → GoesWith ledgers self.now.votes.items self.now.nodes self.now.root
            → result ≡ length (spots ledgers self.now.votes.items) }
        ensures few { (ledgers : List Header) → AreLedgers ledgers
            → GoesWith ledgers self.now.votes.items self.now.nodes self.now.root
            → result ≤ 2 * length self.now.votes.items + 1 }
    {
        self.nodes.live()
    }

    fn place(&self, registry: &Registry, ledger: LedgerNo) -> Place
        requires trie { GoesWith registry.now.headers self.now.votes.items self.now.nodes self.now.root }
        requires known { ledger < length registry.now.headers }
        ensures ledgers { AreLedgers registry.now.headers }
        ensures place { IsPlace registry.now.headers (spans self.now.nodes) ledger result }
    {
        seek(
            &self.nodes,
            registry,
            ledger,
            self.root,
            span_at(&self.nodes, self.root),
        )
    }
}

impl Branch for Trie {
    ghost use Rattle.std.specs.Prelude.{Some};
    ghost use Rattle.xl_trie.specs.Tries.{GoesWith};
    ghost use Rattle.xl_trie.specs.Growing.{goes_more};

    ghost JUMPS = { Some 18 };

    const JUMPS: Option<u64> = Some(18);

    ghost votes = { λ t. t.votes.items };

    ghost room = { λ t. t.members };

    ghost goes_with = { λ t ledgers. GoesWith ledgers t.votes.items t.nodes t.root };

    fn open(alloc: Global, members: u32) -> Result<Self, OutOfMemory> {
        let mut nodes = Pool::with_slots(alloc, 2 * members + 1)?;
        let votes = Vec::with_capacity(alloc, members as usize)?;
        let Ok(root) = nodes.take(root_node()) else {
            unreachable!()
        };
        Ok(Trie {
            nodes,
            root,
            votes,
            members,
        })
    }

    fn vote(&mut self, registry: &Registry, member: NodeNo, ledger: LedgerNo) {
        let place = self.place(registry, ledger);
        let name = come(&mut self.nodes, registry, place, ledger);
        recount(&mut self.nodes, registry, name, Change::OneMore);
        self.votes.push_reserved(Vote { member, ledger });
    }

    fn unvote(&mut self, registry: &Registry, member: NodeNo) {
        let ledger = ledger_of(&self.votes, member);
        let place = self.place(registry, ledger);
        recount(&mut self.nodes, registry, place.at, Change::OneFewer);
        drop_votes_of(&mut self.votes, member);
        prune(&mut self.nodes, place.at);
    }

    fn tip(&self, registry: &Registry, ledger: LedgerNo) -> u32 {
        let place = self.place(registry, ledger);
        let span = span_at(&self.nodes, place.at);
        if span.ledger == ledger { span.tip } else { 0 }
    }

    fn branch(&self, registry: &Registry, ledger: LedgerNo) -> u32 {
        let place = self.place(registry, ledger);
        let span = span_at(&self.nodes, place.at);
        if span.ledger == ledger {
            return span.branch;
        }
        let Some(name) = place.within else { return 0 };
        let child = span_at(&self.nodes, name);
        if is_on_chain(registry, ledger, child.ledger) {
            child.branch
        } else {
            0
        }
    }

    fn preferred(&self, walk: &mut Walk<'_>, largest: Seq) -> Option<LedgerNo> {
        if self.votes.is_empty() {
            return None;
        }
        let root = span_at(&self.nodes, self.root);
        Some(prefer_from(&self.nodes, &self.votes, walk, largest, self.root, root))
    }

    ghost grows = { λ t ledgers h ok goes. goes_more ledgers h ok t.votes.items t.nodes t.root goes };
}
