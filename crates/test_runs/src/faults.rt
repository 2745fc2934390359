// Runs of which one call fails.
use crate::comparison::{Comparison, compare_front};
use crate::run::{Run, read_run};
use std::alloc::{AllocError, Global};
use std::fs::Files;
use std::io;
use std::sync::Wait;
use std::thread::Threads;
use xl_base::Status;

/// Which calls fail.
#[derive(Clone, Copy, PartialEq, Eq)]
enum Calls {
    Reads,
    Writes,
}

impl Calls {
    fn fault(self) -> Status {
        match self {
            Calls::Reads => Status::ReadFault,
            Calls::Writes => Status::WriteFault,
        }
    }
}

/// How many reads and how many writes a run makes, each of which ended it with its fault if it failed.
#[derive(Clone, Copy, PartialEq, Eq)]
pub struct Faults {
    pub reads: u64,
    pub writes: u64,
}

/// What became of a run whose call of one number is to fail.
#[derive(Clone, Copy, PartialEq, Eq)]
enum Turn {
    /// It ended with the fault, behind a front of its text.
    Failed,
    /// It has no such call, and went as without a fault.
    Whole,
    Other,
}

/// The run whose call of this number fails.
fn fail_one<R: Threads + Wait + Files + Sync>(
    threads: &R,
    alloc: Global,
    run: &Run,
    piece: usize,
    calls: Calls,
    number: u64,
) -> Result<Turn, AllocError> {
    let failing = [number].to_vec(alloc)?;
    let ended = match calls {
        Calls::Reads => run.end(threads, alloc, piece, failing, Vec::new(alloc))?,
        Calls::Writes => run.end(threads, alloc, piece, Vec::new(alloc), failing)?,
    };
    if run.compare(&ended) == Comparison::Same {
        return Ok(Turn::Whole);
    }
    let fault = calls.fault().code();
    match compare_front(ended.status.code(), ended.output.held(), fault, &run.text) {
        Comparison::Same => Ok(Turn::Failed),
        _ => Ok(Turn::Other),
    }
}

/// How many such calls a run makes, if each ends it with its fault as it fails; `None` if one doesn't.
fn fail_each<R: Threads + Wait + Files + Sync>(
    threads: &R,
    alloc: Global,
    run: &Run,
    piece: usize,
    calls: Calls,
) -> Result<Option<u64>, AllocError> {
    for done in 0..u64::MAX {
        match fail_one(threads, alloc, run, piece, calls, done + 1)? {
            Turn::Failed => {}
            Turn::Whole => return Ok(Some(done)),
            Turn::Other => return Ok(None),
        }
    }
    Ok(None)
}

fn faults_of<R: Threads + Wait + Files + Sync>(
    threads: &R,
    alloc: Global,
    run: &Run,
    piece: usize,
) -> Result<Option<Faults>, AllocError> {
    let Some(reads) = fail_each(threads, alloc, run, piece, Calls::Reads)? else {
        return Ok(None);
    };
    let Some(writes) = fail_each(threads, alloc, run, piece, Calls::Writes)? else {
        return Ok(None);
    };
    Ok(Some(Faults { reads, writes }))
}

/// The faults of a line of `faults`; `None` where one of the runs ended otherwise, or the line tells of no run.
pub fn run_with_faults<R: Threads + Wait + Files + Sync>(
    rt: &HostRuntime,
    threads: &R,
    line: &str,
) -> io::Result<Option<Faults>> {
    let Some((piece, named)) = line.split_once(' ') else {
        return Ok(None);
    };
    let Ok(piece) = piece.parse() else {
        return Ok(None);
    };
    match read_run(rt, named)? {
        Some(run) => Ok(faults_of(threads, rt.alloc(), &run, piece)?),
        None => Ok(None),
    }
}
