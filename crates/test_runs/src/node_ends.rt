// How a node ends if one call of its outside fails.
use crate::outside::{BEGINNING, keeper_of, run_node};
use std::alloc::{AllocError, Global};
use std::fs::Files;
use std::io;
use std::sync::Wait;
use std::thread::Threads;
use xl_base::Status;
use xl_board::MemBoards;
use xl_links::{MemClock, MemHub, PlainLink};

/// Which call fails, if one does.
#[derive(Clone, Copy, PartialEq, Eq)]
enum Failing {
    Nothing,
    Load,
    Link,
    Board,
    JournalFile,
}

const ALONE: &str = "me = 1\nlist = [1]\nquorum = 1\nrun_ms = 20000\nstatus = \"xl.status\"\n";

const WITH_A_JOURNAL: &str =
    "me = 1\nlist = [1]\nquorum = 1\nrun_ms = 3000\njournal_file = \"xl.journal\"\n";

const WITH_A_PEER: &str =
    "me = 1\nlist = [1]\nquorum = 1\n[[peer]]\nnumber = 2\ndial = \"192.0.2.1:5005\"\n\
    key = \"00000000000000000000000000000000000000000000000000000000000000ff\"\n";

impl Failing {
    fn name(self) -> &'static str {
        match self {
            Failing::Nothing => "nothing",
            Failing::Load => "the load",
            Failing::Link => "the link",
            Failing::Board => "the board",
            Failing::JournalFile => "the journal's file",
        }
    }

    fn settings(self) -> &'static str {
        match self {
            Failing::Link => WITH_A_PEER,
            Failing::JournalFile => WITH_A_JOURNAL,
            _ => ALONE,
        }
    }

    /// Whether boards and files are opened.
    fn opens(self) -> bool {
        !matches!(self, Failing::Board | Failing::JournalFile)
    }

    /// The first call, if it is this one that fails.
    fn first_if(self, call: Failing, alloc: Global) -> Result<Vec<u64>, AllocError> {
        let mut calls = Vec::new(alloc);
        if self == call {
            calls.push(1)?;
        }
        Ok(calls)
    }

    /// A hub without links.
    fn hub(self, alloc: Global) -> Result<MemHub<PlainLink>, AllocError> {
        let failing = self.first_if(Failing::Link, alloc)?;
        MemHub::new(alloc, Vec::new(alloc), failing, 1)
            .ok()
            .ok_or(AllocError)
    }
}

/// How a node ends if this call fails.
fn end<R: Threads + Wait + Files + Sync>(
    threads: &R,
    alloc: Global,
    failing: Failing,
) -> Result<Status, AllocError> {
    let ended = run_node(
        threads,
        alloc,
        failing.settings(),
        keeper_of(alloc, failing.first_if(Failing::Load, alloc)?)?,
        failing.hub(alloc)?,
        MemBoards::new(alloc, failing.opens()),
        &MemClock::new(BEGINNING),
    )?;
    Ok(ended.status)
}

/// Runs a node for each call that may fail, and prints how it ended.
pub fn run_ends<R: Threads + Wait + Files + Sync>(rt: &HostRuntime, threads: &R) -> io::Result<()> {
    for failing in [
        Failing::Nothing,
        Failing::Load,
        Failing::Link,
        Failing::Board,
        Failing::JournalFile,
    ] {
        let status = end(threads, rt.alloc(), failing)?;
        println!(rt; "node, {} fails: status {}", failing.name(), status.code())?;
    }
    Ok(())
}
