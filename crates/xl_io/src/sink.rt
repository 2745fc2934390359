ghost use Rattle.std.specs.Prelude.{◌≡◌, ◌≢◌, ℕ, ◌≤◌, List, OnOk, OnErr};
ghost use Rattle.std.specs.declared.option.Option.{Option};
ghost use Rattle.std.specs.Io.KnownBytes.{append_known};
ghost use Rattle.xl_base.specs.Faults.{Rose};
ghost use Rattle.xl_io.specs.Sinks.{FitsPiece, Writes, GrewByFront, GrewByLess};

pub mod memory;
pub mod standard;

use crate::Failed;

/// What a write answers.
#[derive(Clone, Copy, PartialEq, Eq)]
pub enum Wrote {
    /// It took this many bytes from the front of the piece.
    Took(usize),
    /// The count of faults rose, and no byte was taken.
    Failed,
}

/// Where bytes go.
pub trait Sink {
    /// The bytes that it holds, if it tells them.
    ghost held: { Self → Option (List ℕ) };

    /// How often a write has failed, up to the greatest `u64`.
    ghost faults: { Self → ℕ };

    /// Takes bytes from the front of the piece, at least one if there is one.
    fn write(&mut self, piece: &[u8]) -> Wrote
        ensures fits { FitsPiece result piece.now }
        ensures bytes { Writes (held self.old) (held self.new) result piece.now }
        ensures later { faults self.old ≤ faults self.new }
        ensures failed { result ≡ Wrote.Failed → Rose (faults self.old) (faults self.new) }
        ensures exact { result ≢ Wrote.Failed → faults self.new ≡ faults self.old };
}

/// Writes all the bytes. It fails if a write of the sink does, and the sink then holds a front of them, not all.
pub fn write_all<K: Sink>(sink: &mut K, bytes: &[u8]) -> Result<(), Failed>
    ensures whole { OnOk result (K.held sink.new ≡ append_known (K.held sink.old) bytes.now) }
    ensures front { GrewByFront (K.held sink.old) (K.held sink.new) bytes.now }
    ensures less { OnErr result (GrewByLess (K.held sink.old) (K.held sink.new) bytes.now) }
    ensures later { K.faults sink.old ≤ K.faults sink.new }
    ensures failed { OnErr result (Rose (K.faults sink.old) (K.faults sink.new)) }
    ensures exact { OnOk result (K.faults sink.new ≡ K.faults sink.old) }
{
    let mut rest = bytes;
    while !rest.is_empty() {
        match sink.write(rest) {
            Wrote::Took(count) => rest = &rest[count..],
            Wrote::Failed => return Err(Failed),
        }
    }
    Ok(())
}
