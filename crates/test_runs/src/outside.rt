// What a run of the program is given, in memory.
use std::alloc::{AllocError, Global};
use std::fs::Files;
use std::sync::Wait;
use std::thread::Threads;
use xl_base::Status;
use xl_board::MemBoards;
use xl_io::{MemKeeper, MemSink, MemSource};
use xl_links::{Clock, Hub, OpenGate};
use xl_top::{Host, top};

/// The moment at which the clock in memory begins, in milliseconds.
pub const BEGINNING: u64 = 1000;

/// The words and the streams of a run, and what a node runs on.
#[derive(Drop)]
pub struct Outside<'a, H> {
    pub words: &'a [String],
    pub input: MemSource,
    pub output: MemSink,
    pub keeper: MemKeeper,
    pub hub: H,
    pub boards: MemBoards,
}

/// How a run ended, and what it wrote.
#[derive(Drop)]
pub struct Ended {
    pub status: Status,
    pub output: MemSink,
}

impl<H: Hub + Drop> Outside<'_, H> {
    /// Runs the program. The gate holds nothing.
    pub fn run<R: Threads + Wait + Files + Sync, C: Clock + Sync>(
        self,
        threads: &R,
        alloc: Global,
        clock: &C,
    ) -> Ended {
        let Outside {
            words,
            mut input,
            mut output,
            keeper,
            mut hub,
            mut boards,
        } = self;
        let host = Host {
            rt: threads,
            alloc,
            gate: &OpenGate,
            clock,
        };
        let ended = top(
            &host,
            words,
            &mut input,
            &mut output,
            keeper,
            &mut hub,
            &mut boards,
        );
        Ended {
            status: ended.status,
            output,
        }
    }
}

/// A keeper in memory whose calls of these numbers fail, from 1.
pub fn keeper_of(alloc: Global, failing: Vec<u64>) -> Result<MemKeeper, AllocError> {
    MemKeeper::new(alloc, 0, failing, Vec::new(alloc))
        .ok()
        .ok_or(AllocError)
}

/// How a node ends that has these settings.
pub fn run_node<R: Threads + Wait + Files + Sync, H: Hub + Drop, C: Clock + Sync>(
    threads: &R,
    alloc: Global,
    settings: &str,
    keeper: MemKeeper,
    hub: H,
    boards: MemBoards,
    clock: &C,
) -> Result<Ended, AllocError> {
    let words = words_of(alloc, "xl node")?;
    let settings = settings.as_bytes().to_vec(alloc)?;
    let outside = Outside {
        words: words.as_slice(),
        input: MemSource::new(settings, 61, Vec::new(alloc)),
        output: MemSink::new(alloc, 61, Vec::new(alloc)),
        keeper,
        hub,
        boards,
    };
    Ok(outside.run(threads, alloc, clock))
}

/// The words of a command line.
pub fn words_of(alloc: Global, command: &str) -> Result<Vec<String>, AllocError> {
    let mut words = Vec::new(alloc);
    for word in command.split_whitespace() {
        words.push(String::from_str(alloc, word)?)?;
    }
    Ok(words)
}
