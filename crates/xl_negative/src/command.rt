// The command `xl negative`.
ghost use Rattle.xl_negative.specs.Promises.{negative_promise};

use crate::writer::Writer;
use std::alloc::Global;
use xl_base::OutOfMemory;
use xl_lines::Lines;
use xl_running::LIMITS;
use xl_texts::TextCommand;

/// Reads a schedule, and writes it with the lists that its nodes go over to.
pub struct Negative;

impl TextCommand for Negative {
    type By = Lines<Writer>;

    ghost promise = { negative_promise };

    fn open(alloc: Global) -> Result<Lines<Writer>, OutOfMemory> {
        let writer = Writer::open(alloc)?;
        Ok(Lines::new(alloc, LIMITS, writer))
    }
}
