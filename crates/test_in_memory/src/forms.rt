//! Two forms of one thing, called alike: a small generator makes the calls, and what both answer is compared.
//!
//! Votes for ledgers stand in a list (xl_recount) and in a trie (xl_trie); votes on transactions stand in an index
//! (xl_disputes), and here in plain lists.
use crate::{ballot, round};
use std::io;
use xl_base::OutOfMemory;
use xl_recount::Plain;
use xl_trie::Trie;

/// How many calls are made of each kind.
const CALLS: u64 = 10_000;

fn tell(rt: &HostRuntime, votes: &str, differ: Result<u64, OutOfMemory>) -> io::Result<()> {
    match differ {
        Ok(differ) => println!(rt; "votes {votes}: {CALLS} calls, {differ} differ"),
        Err(_) => println!(rt; "votes {votes}: out of memory"),
    }
}

/// Calls both forms of both, and prints how many calls they differ in.
pub fn run(rt: &HostRuntime) -> io::Result<()> {
    let alloc = rt.alloc();
    tell(
        rt,
        "for ledgers",
        ballot::differing::<Plain, Trie>(alloc, CALLS),
    )?;
    tell(rt, "on transactions", round::differing(alloc, CALLS))
}
