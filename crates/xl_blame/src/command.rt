ghost use Rattle.xl_blame.specs.Blaming.{blame_promise};

use crate::machine::Blamer;
use std::alloc::Global;
use xl_audit::{MOST_BYTES, MOST_LINES};
use xl_base::OutOfMemory;
use xl_lines::{Limits, Lines, Returns};
use xl_texts::TextCommand;

/// Reads written journals, one right behind the other. It writes how each was judged as soon as that has ended, and
/// behind the last one which reports differ and which members said two ledgers of one sequence.
///
/// Its verdict is `Good` if there is nothing to blame, `Found` if there is, and `Refused` for a refused line.
pub struct Blame;

impl TextCommand for Blame {
    type By = Lines<Blamer>;

    ghost promise = { blame_promise };

    fn open(alloc: Global) -> Result<Lines<Blamer>, OutOfMemory> {
        let limits = Limits {
            lines: MOST_LINES as usize,
            bytes: MOST_BYTES,
            returns: Returns::Kept,
        };
        Ok(Lines::new(alloc, limits, Blamer::new(alloc)))
    }
}
