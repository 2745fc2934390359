ghost use Rattle.std.specs.Prelude.{◌≡◌, None};
ghost use Rattle.xl_validator.specs.Tellings.{unmade_of};

use xl_base::Status;
use xl_status::Unmade;
use xl_store::Journal;
use xl_workers::RunEnd;

/// What a run of a node leaves.
#[derive(Drop)]
pub(crate) struct Run<K> {
    pub status: Status,
    /// What the hub couldn't make, if that ended it.
    pub unmade: Option<Unmade>,
    pub keeper: K,
    pub journal: Option<Journal>,
}

impl<K: Drop> Run<K> {
    /// No store was opened.
    pub fn unopened(status: Status, keeper: K) -> Self
        ensures status { result.status ≡ status }
        ensures unmade { result.unmade ≡ None }
        ensures keeper { result.keeper ≡ keeper }
        ensures journal { result.journal ≡ None }
    {
        Run {
            status,
            unmade: None,
            keeper,
            journal: None,
        }
    }
}

/// What the hub of a run couldn't make, if that ended it.
pub(crate) fn unmade_of(end: &RunEnd) -> Option<Unmade>
    ensures { result ≡ unmade_of end.now }
{
    match end {
        RunEnd::LinkFault(member) => Some(Unmade::Link(*member)),
        RunEnd::DoorFault => Some(Unmade::Door),
        RunEnd::Ran { beats: _, last: _ }
        | RunEnd::OutOfMemory
        | RunEnd::TooFewThreads
        | RunEnd::StoreFull(_) => None,
    }
}
