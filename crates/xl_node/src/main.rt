//! `xl`, the agreement layer of the XRP Ledger. Its commands read standard input and write standard output.
//!
//! It stands on xl_top, whose `top` says what the program does. Here the words, the streams, the network, the clock and
//! the files of the system, and the exit status, are those of a process.
#![tactic(auto)]

use std::process::ExitCode;
use std::{env, io};
use xl_base::Status;
use xl_io::{StdSink, StdSource};
use xl_keep::{FileKeeper, SystemBoards, SystemFile};
use xl_links::OpenGate;
use xl_tcp::{SystemClock, TcpHub};
use xl_top::{Host, top};

/// The line on standard error that goes with a status, if one does.
fn complaint(status: Status) -> Option<&'static str> {
    match status {
        Status::Done | Status::Fork | Status::InputRefused => None,
        Status::WordsRefused => Some("xl: words refused"),
        Status::ReadFault => Some("xl: input failed"),
        Status::WriteFault => Some("xl: output failed"),
        Status::OutOfMemory => Some("xl: out of memory"),
        Status::KeepFault => Some("xl: keeper failed"),
        Status::NetFault => Some("xl: network failed"),
        Status::StoreFull => Some("xl: store full"),
    }
}

/// The words of the command line. One that isn't text is refused, as is their lack of memory.
fn words_of(rt: &HostRuntime) -> Result<Vec<String>, Status> {
    let alloc = rt.alloc();
    let words = env::args(rt).map_err(|error| match error.kind() {
        io::ErrorKind::OutOfMemory => Status::OutOfMemory,
        _ => Status::WordsRefused,
    })?;
    let mut all: Vec<String> = Vec::new(alloc);
    for word in words {
        if all.push(word).is_err() {
            return Err(Status::OutOfMemory);
        }
    }
    Ok(all)
}

/// What the program finds outside: the words of its command line, and what a node keeps, connects by, tells time by and
/// says how it is on.
#[derive(Drop)]
struct Outside {
    words: Vec<String>,
    keeper: FileKeeper<SystemFile<HostRuntime>>,
    hub: TcpHub<HostRuntime>,
    boards: SystemBoards<HostRuntime>,
    clock: SystemClock<HostRuntime>,
}

fn again(rt: &HostRuntime) -> Result<HostRuntime, Status> {
    rt.clone().map_err(|_| Status::OutOfMemory)
}

/// The keeper of the file `xl.keep` in the folder in which the program runs.
fn keeper_of(rt: &HostRuntime) -> Result<FileKeeper<SystemFile<HostRuntime>>, Status> {
    let file = SystemFile::new(rt.alloc(), again(rt)?, ".", "xl.keep");
    let file = file.map_err(|_| Status::OutOfMemory)?;
    FileKeeper::new(rt.alloc(), file).map_err(|_| Status::OutOfMemory)
}

fn found_by(rt: &HostRuntime) -> Result<Outside, Status> {
    Ok(Outside {
        words: words_of(rt)?,
        keeper: keeper_of(rt)?,
        hub: TcpHub::new(rt.alloc(), again(rt)?),
        boards: SystemBoards::new(rt.alloc(), again(rt)?, again(rt)?),
        clock: SystemClock::new(again(rt)?),
    })
}

fn main(rt: HostRuntime) -> ExitCode {
    let status = match found_by(&rt) {
        Ok(outside) => {
            let Outside {
                words,
                keeper,
                mut hub,
                mut boards,
                clock,
            } = outside;
            let host = Host {
                rt: &rt,
                alloc: rt.alloc(),
                gate: &OpenGate,
                clock: &clock,
            };
            let mut input = StdSource::new(rt.reader());
            let mut output = StdSink::new(io::writer(&rt));
            top(
                &host,
                &words,
                &mut input,
                &mut output,
                keeper,
                &mut hub,
                &mut boards,
            )
            .status
        }
        Err(status) => status,
    };
    if let Some(line) = complaint(status) {
        // Nothing more can be said if standard error fails.
        let _ = rt.eprintln(line);
    }
    ExitCode::from(status.code())
}
