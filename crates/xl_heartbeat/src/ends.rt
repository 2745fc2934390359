ghost use Rattle.std.specs.Prelude.{◌≡◌};
ghost use Rattle.xl_heartbeat.specs.Going.{ending_of, after_reports};

use xl_store::StoreEnd;

/// How a part of a run ended.
#[derive(Clone, Copy, PartialEq, Eq)]
pub enum Ending {
    /// All was done: the time of the run was over, or the last reports were written.
    Done,
    /// A write failed: the sink's count of faults rose.
    WriteFault,
    OutOfMemory,
    /// All turns of the store are drawn: it has so many.
    StoreFull(u64),
}

/// How the telling of the store that the node is to stop ended. For lack of memory it is told again.
#[derive(Clone, Copy, PartialEq, Eq)]
pub enum Stopping {
    Done,
    /// All turns of the store are drawn: it has this many, and wasn't told.
    StoreFull(u64),
}

/// How a heartbeat ended: why no further beat came, and then its stop.
#[derive(Clone, Copy, PartialEq, Eq)]
pub struct BeatEnd {
    pub run: Ending,
    pub stop: Stopping,
}

/// How a part of a run ends whose call had no turn.
pub(crate) fn ending_of(end: StoreEnd) -> Ending
    ensures { result ≡ ending_of end }
{
    match end {
        StoreEnd::OutOfMemory => Ending::OutOfMemory,
        StoreEnd::StoreFull(limit) => Ending::StoreFull(limit),
    }
}

/// Why a beat was the last, if it was, once its reports were taken and the time of the run may be over.
pub(crate) fn after_reports(taken: Ending, over: bool) -> Option<Ending>
    ensures { result ≡ after_reports taken over }
{
    match taken {
        Ending::Done => {
            if over {
                return Some(Ending::Done);
            }
            None
        }
        Ending::WriteFault | Ending::OutOfMemory | Ending::StoreFull(_) => Some(taken),
    }
}
