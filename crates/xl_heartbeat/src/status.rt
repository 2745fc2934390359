ghost use Rattle.std.specs.Prelude.{◌≡◌, option_to_list};
ghost use Rattle.xl_heartbeat.specs.Statuses.{met_by, met_at_stop, met_first, status_of_run};

use crate::ends::{BeatEnd, Ending, Stopping};
use xl_base::Status;

/// The status that a run ends with whose workers have run, from its heartbeat's end and from that of the last reports.
///
/// It is the first cause that the beats, the stop and the last reports met, in this order. But a write's fault in the
/// last reports comes before all.
pub fn status_of_run(beats: BeatEnd, last: Ending) -> Status
    ensures status { result ≡ status_of_run beats last }
{
    first_cause(last)
        .or(cause(beats.run))
        .or(cause_at_stop(beats.stop))
        .or(cause(last))
        .unwrap_or(Status::Done)
}

/// What comes before all.
fn first_cause(last: Ending) -> Option<Status>
    ensures { option_to_list result ≡ met_first last }
{
    match last {
        Ending::WriteFault => Some(Status::WriteFault),
        Ending::Done | Ending::OutOfMemory | Ending::StoreFull(_) => None,
    }
}

/// What the beats met, or the last reports.
fn cause(end: Ending) -> Option<Status>
    ensures { option_to_list result ≡ met_by end }
{
    match end {
        Ending::Done => None,
        Ending::WriteFault => Some(Status::WriteFault),
        Ending::OutOfMemory => Some(Status::OutOfMemory),
        Ending::StoreFull(_) => Some(Status::StoreFull),
    }
}

/// What the stop met.
fn cause_at_stop(stop: Stopping) -> Option<Status>
    ensures { option_to_list result ≡ met_at_stop stop }
{
    match stop {
        Stopping::Done => None,
        Stopping::StoreFull(_) => Some(Status::StoreFull),
    }
}
