//! The worked runs of `xl`: each gives the program its words and an input in memory, and compares what it writes, and
//! its status, with what they should be. It prints how each went, and how many went as they should.
//!
//! The file `runs` has a line for each: its name, the status, and the command line. The input is in `NAME.in` and the
//! text in `NAME.out`. The file `refusals` has a schedule a line, ` / ` between its lines, and behind ` -> ` the text
//! that refuses the last. The file `faults` has such a line as `runs`, with the bytes of a piece in front. Each read
//! of that run fails once, and each write. The run must then end with the status of that fault and a front of the
//! text. Then a node runs whose keeper, link, board or file fails, and one that serves two links side by side.
//!
//! It stands on xl_top. Its one contract: a run is called the same exactly if both the text and the status are.
#![tactic(auto)]

mod beside;
mod comparison;
mod faults;
mod node_ends;
mod outside;
mod run;

use beside::run_beside;
use comparison::Comparison;
use faults::run_with_faults;
use node_ends::run_ends;
use run::{run_named, run_refused};
use std::fs::Files;
use std::sync::Wait;
use std::thread::Threads;
use std::{fs, io};

/// How many runs went as they should, and how many didn't.
#[derive(Drop)]
struct Tally {
    same: u32,
    other: u32,
}

impl Tally {
    fn count(&mut self, comparison: Comparison) {
        match comparison {
            Comparison::Same => self.same = self.same.saturating_add(1),
            _ => self.other = self.other.saturating_add(1),
        }
    }
}

/// The runs that have a name, each with what became of it.
fn run_all<R: Threads + Wait + Files + Sync>(
    rt: &HostRuntime,
    threads: &R,
    tally: &mut Tally,
) -> io::Result<()> {
    let runs = fs::read_to_string(rt, "runs")?;
    for line in runs.as_str().lines() {
        let comparison = run_named(rt, threads, line)?;
        println!(rt; "{line}: {comparison}")?;
        tally.count(comparison);
    }
    Ok(())
}

/// The schedules with a refused line, of which only those are printed that didn't go as they should.
fn refuse_all<R: Threads + Wait + Files + Sync>(
    rt: &HostRuntime,
    threads: &R,
    tally: &mut Tally,
) -> io::Result<()> {
    let refusals = fs::read_to_string(rt, "refusals")?;
    for line in refusals.as_str().lines() {
        let comparison = run_refused(threads, rt.alloc(), line)?;
        if comparison != Comparison::Same {
            println!(rt; "{line}: {comparison}")?;
        }
        tally.count(comparison);
    }
    Ok(())
}

/// The runs of which each call fails once.
fn fail_all<R: Threads + Wait + Files + Sync>(
    rt: &HostRuntime,
    threads: &R,
    tally: &mut Tally,
) -> io::Result<()> {
    let lines = fs::read_to_string(rt, "faults")?;
    for line in lines.as_str().lines() {
        match run_with_faults(rt, threads, line)? {
            Some(faults) => {
                println!(rt;
                    "{line}: {} reads and {} writes fail",
                    faults.reads, faults.writes
                )?;
                tally.count(Comparison::Same);
            }
            None => {
                println!(rt; "{line}: another end")?;
                tally.count(Comparison::NoRun);
            }
        }
    }
    Ok(())
}

fn main(rt: HostRuntime) -> io::Result<()> {
    let mut tally = Tally { same: 0, other: 0 };
    run_all(&rt, &rt, &mut tally)?;
    refuse_all(&rt, &rt, &mut tally)?;
    fail_all(&rt, &rt, &mut tally)?;
    run_ends(&rt, &rt)?;
    run_beside(&rt, &rt)?;
    println!(rt; "{} same, {} other", tally.same, tally.other)
}
