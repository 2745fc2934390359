// The command `xl flags`.
ghost use Rattle.xl_voting.specs.Promises.{flags_promise};

use crate::voter::Voter;
use std::alloc::Global;
use xl_base::OutOfMemory;
use xl_lines::Lines;
use xl_running::LIMITS;
use xl_texts::TextCommand;

/// Reads a schedule with lines of votes, and writes what each flag report says.
pub struct Flags;

impl TextCommand for Flags {
    type By = Lines<Voter>;

    ghost promise = { flags_promise };

    fn open(alloc: Global) -> Result<Lines<Voter>, OutOfMemory> {
        let voter = Voter::new(alloc)?;
        Ok(Lines::new(alloc, LIMITS, voter))
    }
}
