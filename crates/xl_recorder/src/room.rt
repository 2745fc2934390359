ghost use Rattle.std.specs.Prelude.{◌≡◌, ◌≤◌, ⊤, MatchResult};
ghost use Rattle.std.specs.String.{string_bytes};
ghost use Rattle.xl_recorder.specs.Parts.{HasWritten, HasStopped, part};

use crate::RecordEnd;
use xl_audit::MOST_LINES;
use xl_io::{Sink, write_all};

/// Behind the 66 lines that may stand before them, so many entries have room among the lines that an auditor takes.
pub const MOST_ENTRIES: u64 = MOST_LINES as u64 - 66;

/// How much a recorder has written, and how much more it may.
#[derive(Clone, Copy)]
pub(crate) struct Room {
    /// The entries that were written.
    pub entries: u64,
    /// The bytes that may still be written.
    pub bytes: u64,
}

/// Writes a text, if there is room for all of it.
pub(crate) fn write_text<S: Sink>(
    text: &str,
    room: &mut Room,
    sink: &mut S,
) -> Result<(), RecordEnd>
    ensures { MatchResult result
        (λ _. HasWritten (part room.old (S.held sink.old) (S.faults sink.old)) 0 text.now
        (part room.new (S.held sink.new) (S.faults sink.new)))
        (λ why. HasStopped (part room.old (S.held sink.old) (S.faults sink.old)) ⊤ 0 text.now why
        (part room.new (S.held sink.new) (S.faults sink.new))) }
{
    let bytes = text.len() as u64;
    if bytes > room.bytes {
        return Err(RecordEnd::Full);
    }
    write_all(sink, text.as_bytes())?;
    room.bytes -= bytes;
    Ok(())
}
