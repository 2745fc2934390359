ghost use Rattle.std.specs.Prelude.{min, IfOk};
ghost use Rattle.xl_gen.specs.Sizes.{most_rounds};
ghost use Rattle.xl_gen.specs.Summaries.{summary};
ghost use Rattle.xl_io.specs.Memory.{bytes_held};
ghost use Rattle.xl_lines.specs.Running.{TellsAll};
ghost use Rattle.xl_page.specs.Pages.{IsPage};

use crate::Page;
use std::alloc::Global;
use xl_gen::{MOST_ROUNDS, generate};
use xl_io::MemSink;
use xl_lines::{Fault, Verdict};

/// Puts the summary of this many rounds, or of the most, into the sink.
fn summarize(alloc: Global, rounds: u32, sink: &mut MemSink) -> Result<Verdict, Fault>
    ensures { IfOk result (λ verdict.
        TellsAll (bytes_held sink.old) (bytes_held sink.new) verdict (summary (min rounds most_rounds))) }
{
    generate(alloc, rounds.min(MOST_ROUNDS), sink)
}

/// What `xl gen` writes of this many rounds, or of the most.
pub fn made(alloc: Global, rounds: u32, room: &mut [u8]) -> Page
    ensures { IsPage (summary (min rounds most_rounds)) result.status result.length room.new }
{
    let mut sink = MemSink::new(alloc, usize::MAX, Vec::new(alloc));
    let run = summarize(alloc, rounds, &mut sink);
    Page::after(run, &sink, room)
}
