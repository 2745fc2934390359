ghost use Rattle.xl_pairs.specs.Comparing.{lists_promise};

use crate::machine::Comparer;
use std::alloc::Global;
use xl_base::OutOfMemory;
use xl_lines::{Limits, Lines, Returns};
use xl_sched::{MOST_BYTES, MOST_LINES};
use xl_texts::TextCommand;

/// Reads the declarations of a schedule, and writes what the lists of each pair of nodes have in common. A later line
/// may declare a liar of an earlier pair, so nothing is told before the end.
pub struct Lists;

impl TextCommand for Lists {
    type By = Lines<Comparer>;

    ghost promise = { lists_promise };

    fn open(alloc: Global) -> Result<Lines<Comparer>, OutOfMemory> {
        let limits = Limits {
            lines: MOST_LINES as usize,
            bytes: MOST_BYTES,
            returns: Returns::Dropped,
        };
        let comparer = Comparer::new(alloc)?;
        Ok(Lines::new(alloc, limits, comparer))
    }
}
