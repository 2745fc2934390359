ghost use Rattle.std.specs.Prelude.{◌≡◌, None};

use xl_base::Status;
use xl_heartbeat::Bulletin;
use xl_io::Sink;
use xl_recorder::FileRecorder;
use xl_store::Journal;

/// What a command leaves: how it ended, the keeper, and, if a node's store was opened, the journal of that, which only
/// contracts see. If a board was opened for a node it leaves that, with what the node told beside; and if a file for its
/// journal was, what wrote there.
#[derive(Drop)]
pub struct Ended<K, D, J> {
    pub status: Status,
    pub keeper: K,
    pub journal: Option<Journal>,
    pub bulletin: Option<Bulletin<D>>,
    pub recorder: Option<FileRecorder<J>>,
}

impl<K: Drop, D: Drop, J: Sink + Drop> Ended<K, D, J> {
    /// No store was opened, no board and no file.
    pub fn unopened(status: Status, keeper: K) -> Self
        ensures status { result.status ≡ status }
        ensures keeper { result.keeper ≡ keeper }
        ensures journal { result.journal ≡ None }
        ensures bulletin { result.bulletin ≡ None }
        ensures recorder { result.recorder ≡ None }
    {
        Ended {
            status,
            keeper,
            journal: None,
            bulletin: None,
            recorder: None,
        }
    }
}
