// Two links side by side: node 1 serves the members 2 and 3. Each of them has one validation to give, of the same
// ledger, and is silent from then on. The clock goes on only once both links were read again behind that frame. So a
// node that served one link to its end before the other wouldn't get there, and the run would say so.
mod clock;
mod frame;
mod link;

use crate::outside::{BEGINNING, Ended, keeper_of, run_node};
use clock::HeldClock;
use frame::sealed_frame;
use link::CountedLink;
use std::alloc::{AllocError, Global};
use std::fs::Files;
use std::io;
use std::sync::Wait;
use std::sync::atomic::AtomicU64;
use std::thread::Threads;
use xl_base::NodeNo;
use xl_board::MemBoards;
use xl_links::{MemHub, PlainLink, Spare};

/// Node 1's settings. The keys are those of a schedule.
const SETTINGS: &str = r#"me = 1
list = [2, 3]
quorum = 2
run_ms = 5000

[[peer]]
number = 2
key = "fca3263f1304ce34a07069b71675e392dedafb1b78431f24b755aa85ba441c6a"
dial = "192.0.2.2:5102"

[[peer]]
number = 3
key = "d23f57b5ad14856e8193d1a3f66b976b7a8b825639df9f5db7c61ef369093e10"
dial = "192.0.2.3:5103"
"#;

/// A link of node 1 to the member, with its frame to give.
fn spare_of<'a>(
    alloc: Global,
    me: NodeNo,
    member: NodeNo,
    reads: &'a AtomicU64,
) -> Result<Spare<CountedLink<'a>>, AllocError> {
    let frame = sealed_frame(member, me);
    Ok(Spare {
        member,
        link: CountedLink {
            source: PlainLink::new(frame.to_vec(alloc)?, frame.len()),
            reads,
        },
    })
}

/// Runs node 1 over these links.
fn run<R: Threads + Wait + Files + Sync>(
    threads: &R,
    alloc: Global,
    links: Vec<Spare<CountedLink<'_>>>,
    clock: &HeldClock<'_>,
) -> Result<Ended, AllocError> {
    let hub = MemHub::new(alloc, links, Vec::new(alloc), 2)
        .ok()
        .ok_or(AllocError)?;
    run_node(
        threads,
        alloc,
        SETTINGS,
        keeper_of(alloc, Vec::new(alloc))?,
        hub,
        MemBoards::new(alloc, true),
        clock,
    )
}

/// Prints what the run wrote, its status, and whether the clock gave up.
fn tell(rt: &HostRuntime, ended: &Ended, clock: &HeldClock<'_>) -> io::Result<()> {
    match str::from_utf8(ended.output.held()) {
        Ok(text) => print!(rt; "{text}")?,
        Err(_) => println!(rt; "no text")?,
    }
    println!(rt; "status {}", ended.status.code())?;
    if clock.has_missed() {
        println!(rt; "a link wasn't read beside the other")?;
    }
    Ok(())
}

/// Runs node 1 over two links, and prints how it went.
pub fn run_beside<R: Threads + Wait + Files + Sync>(
    rt: &HostRuntime,
    threads: &R,
) -> io::Result<()> {
    let alloc = rt.alloc();
    let (Some(me), Some(two), Some(three)) = (NodeNo::new(1), NodeNo::new(2), NodeNo::new(3)) else {
        return Ok(());
    };
    let (left, right) = (AtomicU64::new(0), AtomicU64::new(0));
    let clock = HeldClock::new(BEGINNING, &left, &right);
    let mut links = Vec::new(alloc);
    links.push(spare_of(alloc, me, two, &left)?)?;
    links.push(spare_of(alloc, me, three, &right)?)?;
    let ended = run(threads, alloc, links, &clock)?;
    tell(rt, &ended, &clock)
}
