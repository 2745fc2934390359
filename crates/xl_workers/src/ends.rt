ghost use Rattle.std.specs.Prelude.{◌≡◌};
ghost use Rattle.xl_workers.specs.Runs.{status_of_end};

use xl_base::{NodeNo, Status};
use xl_heartbeat::{BeatEnd, Ending, status_of_run};

/// How a run ended.
#[derive(Clone, Copy, PartialEq, Eq)]
pub enum RunEnd {
    /// The heartbeat and the workers ran. The heartbeat ended so, and then the last reports did.
    Ran { beats: BeatEnd, last: Ending },
    /// The hub could not make the link to this member: its count of faults rose. Nothing but the submits happened at the
    /// core, and no door was opened.
    LinkFault(NodeNo),
    /// The hub made all links and could not make the door: its count of faults rose. Nothing but the submits happened at
    /// the core.
    DoorFault,
    /// Memory ran out before the heartbeat and the workers ran. No door was opened.
    OutOfMemory,
    /// A thread for each member, one for the door if there is one, and one more couldn't be started. Nothing happened at
    /// the core, and no link was opened.
    TooFewThreads,
    /// A submit found all turns of the store drawn: it has this many. No link was opened.
    StoreFull(u64),
}

impl RunEnd {
    /// The status of the run.
    pub fn status(self) -> Status
        ensures { result ≡ status_of_end self }
    {
        match self {
            RunEnd::Ran { beats, last } => status_of_run(beats, last),
            RunEnd::LinkFault(_) | RunEnd::DoorFault => Status::NetFault,
            RunEnd::OutOfMemory | RunEnd::TooFewThreads => Status::OutOfMemory,
            RunEnd::StoreFull(_) => Status::StoreFull,
        }
    }
}
