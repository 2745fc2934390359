//! Votes kept as a compressed trie: a node for each spot, which are the root, each voted ledger, and the last common
//! ledger of each two voted ledgers.
//!
//! A node's span are the ledgers after its parent's up to its own. All votes that enter a span go to its end, so one
//! node has their counts. Nodes stand in a pool of two slots a member and one more, and name their parent, first child
//! and next sibling. A vote splits at most one span and hangs at most one node; a vote taken back merges them again.
//!
//! It stands on xl_ledger and xl_pool, and takes no memory once it is opened. Its one contract is that of `Branch`,
//! which `Trie` meets; and its nodes are as many as the spots.
#![tactic(auto)]

mod counting;
mod kids;
mod linking;
mod node;
mod preferring;
mod pruning;
mod seeking;
mod trie;
mod voting;

pub use trie::Trie;
