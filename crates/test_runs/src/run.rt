use crate::comparison::{Comparison, compare};
use crate::outside::{BEGINNING, Ended, Outside, keeper_of, words_of};
use std::alloc::{AllocError, Global};
use std::fs::{self, Files};
use std::io;
use std::sync::Wait;
use std::thread::Threads;
use xl_base::Status;
use xl_board::MemBoards;
use xl_io::{MemSink, MemSource};
use xl_links::{MemClock, PlainHub};

/// Reads and writes are of so few bytes, so that lines are cut anywhere.
const PIECES: [usize; 2] = [61, 1];

/// What a run is given, and how it should end.
#[derive(Drop)]
pub struct Run {
    words: Vec<String>,
    input: Vec<u8>,
    pub status: u8,
    pub text: Vec<u8>,
}

impl Run {
    /// The program on the input in memory, in pieces of this many bytes; the reads and the writes of these numbers
    /// fail. Of `node` the keeper, the clock and the links are in memory too; its peers say nothing.
    pub fn end<R: Threads + Wait + Files + Sync>(
        &self,
        threads: &R,
        alloc: Global,
        piece: usize,
        reads: Vec<u64>,
        writes: Vec<u64>,
    ) -> Result<Ended, AllocError> {
        let input = self.input.to_vec(alloc)?;
        let outside = Outside {
            words: self.words.as_slice(),
            keeper: keeper_of(alloc, Vec::new(alloc))?,
            input: MemSource::new(input, piece, reads),
            output: MemSink::new(alloc, piece, writes),
            hub: PlainHub::new(alloc),
            boards: MemBoards::new(alloc, true),
        };
        Ok(outside.run(threads, alloc, &MemClock::new(BEGINNING)))
    }

    /// How the run goes without a fault, in pieces of each length.
    fn go<R: Threads + Wait + Files + Sync>(
        &self,
        threads: &R,
        alloc: Global,
    ) -> Result<Comparison, AllocError> {
        for piece in PIECES {
            let ended = self.end(threads, alloc, piece, Vec::new(alloc), Vec::new(alloc))?;
            let comparison = self.compare(&ended);
            if comparison != Comparison::Same {
                return Ok(comparison);
            }
        }
        Ok(Comparison::Same)
    }

    /// Compares an end with the one that should be.
    pub fn compare(&self, ended: &Ended) -> Comparison {
        compare(
            ended.status.code(),
            ended.output.held(),
            self.status,
            &self.text,
        )
    }
}

/// A line of `runs`.
#[derive(Clone, Copy)]
struct Named<'a> {
    name: &'a str,
    status: u8,
    command: &'a str,
}

fn read_named(line: &str) -> Option<Named<'_>> {
    let (name, rest) = line.split_once(' ')?;
    let (status, command) = rest.split_once(' ')?;
    let status = status.parse().ok()?;
    Some(Named {
        name,
        status,
        command,
    })
}

/// The run that a line of `runs` names, with its files.
pub fn read_run(rt: &HostRuntime, line: &str) -> io::Result<Option<Run>> {
    let Some(named) = read_named(line) else {
        return Ok(None);
    };
    let alloc = rt.alloc();
    Ok(Some(Run {
        words: words_of(alloc, named.command)?,
        input: fs::read(rt, format!(in alloc; "{}.in", named.name)?)?,
        status: named.status,
        text: fs::read(rt, format!(in alloc; "{}.out", named.name)?)?,
    }))
}

/// The run of a line of `runs`.
pub fn run_named<R: Threads + Wait + Files + Sync>(
    rt: &HostRuntime,
    threads: &R,
    line: &str,
) -> io::Result<Comparison> {
    match read_run(rt, line)? {
        Some(run) => Ok(run.go(threads, rt.alloc())?),
        None => Ok(Comparison::NoRun),
    }
}

/// The bytes of lines, each with its end.
fn lines_of(alloc: Global, text: &str) -> Result<Vec<u8>, AllocError> {
    let mut lines = Vec::new(alloc);
    for line in text.split(" / ") {
        lines.extend_from_slice(line.as_bytes())?;
        lines.push(b'\n')?;
    }
    Ok(lines)
}

/// The run of a line of `refusals`.
pub fn run_refused<R: Threads + Wait + Files + Sync>(
    threads: &R,
    alloc: Global,
    line: &str,
) -> Result<Comparison, AllocError> {
    let Some((schedule, text)) = line.split_once(" -> ") else {
        return Ok(Comparison::NoRun);
    };
    let run = Run {
        words: words_of(alloc, "xl replay")?,
        input: lines_of(alloc, schedule)?,
        status: Status::InputRefused.code(),
        text: lines_of(alloc, text)?,
    };
    run.go(threads, alloc)
}
