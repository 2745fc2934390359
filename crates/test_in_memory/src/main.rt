//! What runs in memory, below the world and its schedules. Seven cores are driven by hand. Two forms of one thing are
//! called alike. Eight threads call the timer of one store 400,000 times, and its journal is let go of. Each prints how
//! it went.
//!
//! With words it does instead what tools/measure counts. It has no contract of its own: the gate proves that it is safe,
//! and compares what it prints without a word, in both compilers' builds.
#![tactic(auto)]

mod ballot;
mod dice;
mod forms;
mod lists;
mod measured;
mod member;
mod rising;
mod round;
mod sets;
mod seven;
mod turns;
mod votes;

use std::sync::Wait;
use std::thread::Threads;
use std::{env, io};

/// How many timers the threads call in all.
const TIMERS: u64 = 400_000;

/// How often they are shared out to two.
const HALVINGS: u32 = 3;

/// All three, one after the other.
fn run_all<R: Threads + Wait + Sync>(rt: &HostRuntime, threads: &R) -> io::Result<()> {
    seven::run(rt)?;
    forms::run(rt)?;
    match turns::of_store(threads, rt.alloc(), TIMERS, HALVINGS) {
        Some(entries) => println!(rt; "timers of eight threads: {entries} entries"),
        None => println!(rt; "timers of eight threads: out of memory"),
    }
}

fn main(rt: HostRuntime) -> io::Result<()> {
    let mut words: Vec<String> = Vec::new(rt.alloc());
    for word in env::args(&rt)? {
        words.push(word)?;
    }
    match words.get(1) {
        Some(kind) => measured::run(&rt, &rt, kind.as_str(), &words),
        None => run_all(&rt, &rt),
    }
}
