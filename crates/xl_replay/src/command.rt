ghost use Rattle.xl_replay.specs.Replays.{report_promise};

use crate::replayer::Replayer;
use std::alloc::Global;
use xl_base::OutOfMemory;
use xl_lines::Lines;
use xl_running::LIMITS;
use xl_texts::TextCommand;

/// Reads a schedule, and writes its report. `law_of_reports` says what that says of forks.
///
/// Its verdict is `Found` if the report ends with a fork.
pub struct Replay;

impl TextCommand for Replay {
    type By = Lines<Replayer>;

    ghost promise = { report_promise };

    fn open(alloc: Global) -> Result<Lines<Replayer>, OutOfMemory> {
        let replayer = Replayer::new(alloc)?;
        Ok(Lines::new(alloc, LIMITS, replayer))
    }
}
