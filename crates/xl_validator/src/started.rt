// A node that has run, and how that is told.
ghost use Rattle.std.specs.Prelude.{◌≡◌};
ghost use Rattle.xl_status.specs.Texts.{end_at};
ghost use Rattle.xl_validator.specs.Following.{end_by, status_with};
ghost use Rattle.xl_validator.specs.Tellings.{TellsOfEnd};

use crate::ended::Ended;
use crate::following::status_with;
use crate::run::Run;
use crate::telling::tell_end;
use xl_board::Board;
use xl_heartbeat::Outlets;
use xl_io::Sink;
use xl_recorder::FileRecorder;
use xl_status::End;
use xl_store::NodeStatus;

/// What a node leaves before it is told how it ended: its run, how it was if its store was opened, and its outlets.
#[derive(Drop)]
pub(crate) struct Started<K, D, J> {
    pub run: Run<K>,
    pub last: Option<NodeStatus>,
    pub outlets: Outlets<D, FileRecorder<J>>,
}

/// Tells on the board, if there is one, how the node ended. A fault of the recorder is known by then.
pub(crate) fn finish<K: Drop, D: Board + Drop, J: Sink + Drop>(
    started: Started<K, D, J>,
) -> Ended<K, D, J>
    ensures status { result.status ≡ status_with (end_by result.recorder) started.run.status }
    ensures keeper { result.keeper ≡ started.run.keeper }
    ensures journal { result.journal ≡ started.run.journal }
    ensures recorder { result.recorder ≡ started.outlets.recorder }
    ensures told { TellsOfEnd D.show_gives started.last (end_at result.status started.run.unmade)
        started.outlets.bulletin result.bulletin }
{
    let Started { run, last, outlets } = started;
    let Run {
        status: ended,
        unmade,
        keeper,
        journal,
    } = run;
    let Outlets {
        mut bulletin,
        recorder,
    } = outlets;
    let status = status_with(&recorder, ended);
    tell_end(&mut bulletin, &last, End { status, unmade });
    Ended {
        status,
        keeper,
        journal,
        bulletin,
        recorder,
    }
}
