ghost use Rattle.xl_show.specs.Promises.{show_promise};

use crate::Frames;
use std::alloc::Global;
use xl_base::OutOfMemory;
use xl_texts::TextCommand;

/// Reads a stream of frames, and writes a line for each, as soon as it is whole.
///
/// Its text ends with a refusal where bytes are no frame, the input ends within one, or it has more than 268,435,456
/// bytes.
pub struct Show;

impl TextCommand for Show {
    type By = Frames;

    ghost promise = { show_promise };

    fn open(alloc: Global) -> Result<Frames, OutOfMemory> {
        Ok(Frames::new(alloc))
    }
}
