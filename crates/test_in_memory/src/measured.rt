//! What tools/measure counts besides schedules: turns of a store, votes of a branch, updates of our set by the votes, and
//! seven cores.
//! The first word is the kind, and numbers follow.
ghost use Rattle.std.specs.Prelude.{◌≤◌};

use crate::{sets, seven, turns, votes};
use std::alloc::Global;
use std::io;
use std::sync::Wait;
use std::thread::Threads;
use xl_recount::Plain;
use xl_trie::Trie;

fn number(words: &[String], place: usize) -> u64 {
    match words.get(place) {
        Some(word) => word.as_str().parse().unwrap_or(0),
        None => 0,
    }
}

/// A number that is at most the greatest.
fn small(words: &[String], place: usize, greatest: u32) -> u32
    ensures { result ≤ greatest }
{
    number(words, place).min(u64::from(greatest)) as u32
}

/// The kinds of turns: a core alone, entries alone, a store that keeps none, and one with its timers shared out.
fn count_turns<W: Threads + Wait + Sync>(
    rt: &W,
    alloc: Global,
    kind: &str,
    words: &[String],
) -> Option<u64> {
    let times = number(words, 2);
    match kind {
        "core" => turns::of_core(alloc, times),
        "entries" => turns::of_entries(alloc, times),
        "unkept" => turns::of_unkept(rt, alloc, times),
        _ => turns::of_store(rt, alloc, times, small(words, 3, 7)),
    }
}

/// Does what the words say, and prints what came of it.
pub fn run<R: Threads + Wait + Sync>(
    rt: &HostRuntime,
    threads: &R,
    kind: &str,
    words: &[String],
) -> io::Result<()> {
    let alloc = rt.alloc();
    let members = small(words, 2, 64);
    let ledgers = small(words, 3, 1_000_000);
    let voting = small(words, 4, members);
    let asks = number(words, 5) > 0;
    match kind {
        "plain" => println!(rt;
            "{:?}",
            votes::run::<Plain>(alloc, members, ledgers, voting, asks)
        ),
        "trie" => println!(rt;
            "{:?}",
            votes::run::<Trie>(alloc, members, ledgers, voting, asks)
        ),
        "seven" => seven::run(rt),
        "alike" => println!(rt; "{:?}", sets::alike(alloc, members)),
        "different" => println!(rt; "{:?}", sets::different(alloc, members as u8)),
        "core" | "entries" | "store" | "unkept" => println!(rt;
            "{:?}",
            count_turns(threads, alloc, kind, words)
        ),
        _ => println!(rt;
            "seven, plain, trie, alike, different, core, entries, store or unkept, and numbers"
        ),
    }
}
