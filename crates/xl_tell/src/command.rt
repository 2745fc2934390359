// The command `xl tell`.
ghost use Rattle.xl_tell.specs.Tellings.{telling_promise};

use crate::narrator::Narrator;
use std::alloc::Global;
use xl_base::OutOfMemory;
use xl_lines::Lines;
use xl_running::LIMITS;
use xl_texts::TextCommand;

/// Reads a schedule, and tells what happens in it. `law_of_telling` says how that holds its report.
///
/// Its verdict is that of the report: `Found` if it ends with a fork.
pub struct Tell;

impl TextCommand for Tell {
    type By = Lines<Narrator>;

    ghost promise = { telling_promise };

    fn open(alloc: Global) -> Result<Lines<Narrator>, OutOfMemory> {
        let narrator = Narrator::new(alloc)?;
        Ok(Lines::new(alloc, LIMITS, narrator))
    }
}
