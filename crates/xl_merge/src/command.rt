ghost use Rattle.xl_merge.specs.Merging.{merge_promise};

use crate::machine::Merger;
use std::alloc::Global;
use xl_base::OutOfMemory;
use xl_lines::{Limits, Lines, Returns};
use xl_sched::{MOST_BYTES, MOST_LINES};
use xl_texts::TextCommand;

/// Reads lines of publishers and rolls, and writes what is told of each.
pub struct Merge;

impl TextCommand for Merge {
    type By = Lines<Merger>;

    ghost promise = { merge_promise };

    fn open(alloc: Global) -> Result<Lines<Merger>, OutOfMemory> {
        let limits = Limits {
            lines: MOST_LINES as usize,
            bytes: MOST_BYTES,
            returns: Returns::Dropped,
        };
        Ok(Lines::new(alloc, limits, Merger::new(alloc)))
    }
}
