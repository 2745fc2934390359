ghost use Rattle.std.specs.Prelude.{◌≡◌, ◌≢◌, ◌≤◌, None, IfSome, length};
ghost use Rattle.xl_base.specs.Faults.{Rose};
ghost use Rattle.xl_io.specs.Sinks.{FitsPiece, Writes};
ghost use Rattle.xl_io.specs.Streams.{TookIn, WritesOn};

use crate::{Sink, Wrote};
use std::io::{ErrorKind, Write};

/// A sink over any writer. What it holds isn't told. A write that is interrupted is made again, and one that takes no
/// byte is a fault.
#[derive(Drop)]
pub struct StdSink<W> {
    writer: W,
    faults: u64,
}

impl<W: Write> StdSink<W> {
    pub fn new(writer: W) -> Self
        ensures { ⟦<StdSink<W> as Sink>⟧.faults result ≡ 0 }
    {
        StdSink { writer, faults: 0 }
    }
}

impl<W: Write> Sink for StdSink<W> {
    ghost held = { λ _. None };

    ghost faults = { λ s. s.faults };

    fn write(&mut self, piece: &[u8]) -> Wrote
        ensures fits { FitsPiece result piece.now }
        ensures bytes { Writes None None result piece.now }
        ensures later { self.old.faults ≤ self.new.faults }
        ensures failed { result ≡ Wrote.Failed → Rose self.old.faults self.new.faults }
        ensures exact { result ≢ Wrote.Failed → self.new.faults ≡ self.old.faults }

        // By what the writer tells.
        ensures stream { WritesOn (W.contents self.old.writer) (W.contents self.new.writer) result piece.now }
    {
        match write_uninterrupted(&mut self.writer, piece) {
            Some(count) if count > 0 => Wrote::Took(count),
            _ => {
                self.faults = self.faults.saturating_add(1);
                Wrote::Failed
            }
        }
    }
}

/// Writes again after each write that was interrupted, and answers how many bytes were taken, or None if the
/// writer failed.
fn write_uninterrupted<W: Write>(writer: &mut W, piece: &[u8]) -> Option<usize>
    ensures fits { IfSome result (λ count. count ≤ length piece.now) }
    ensures stream { TookIn (W.contents writer.old) (W.contents writer.new) result piece.now }
{
    for _ in 0..u64::MAX {
        match writer.write(piece) {
            Ok(count) => return Some(count),
            Err(error) if error.kind() == ErrorKind::Interrupted => {}
            Err(_) => return None,
        }
    }
    None
}
