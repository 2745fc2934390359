ghost use Rattle.std.specs.Prelude.{◌≡◌, ◌≤◌, List, ℕ, [], Some};

use crate::failures::Failures;
use crate::{Sink, Wrote};
use std::alloc::Global;

/// A sink in memory, and the writes that are to fail. A write also fails if memory runs out.
#[derive(Drop)]
pub struct MemSink {
    held: Vec<u8>,
    piece: usize,
    failures: Failures,
}

impl MemSink {
    ghost use Rattle.xl_io.specs.Memory.{write_script};
    ghost use Rattle.xl_io.specs.Scripts.{script_of};

    /// A write takes at most `piece` bytes, 0 being read as 1, and the writes whose numbers, from 1, are listed fail.
    pub fn new(alloc: Global, piece: usize, failing: Vec<u64>) -> Self
        ensures held { ⟦<MemSink as Sink>⟧.held result ≡ Some [] }
        ensures faults { ⟦<MemSink as Sink>⟧.faults result ≡ 0 }
        ensures script { write_script result ≡ script_of failing.items }
    {
        MemSink {
            held: Vec::new(alloc),
            piece,
            failures: Failures::new(failing),
        }
    }

    /// The bytes that were taken.
    pub fn held(&self) -> &[u8]
        ensures { ⟦<MemSink as Sink>⟧.held self.now ≡ Some result.now }
    {
        &self.held
    }
}

impl Sink for MemSink {
    ghost use Rattle.std.specs.Prelude.{◌≢◌, IsTrue};
    ghost use Rattle.xl_base.specs.Faults.{Rose};
    ghost use Rattle.xl_io.specs.Memory.{bytes_held, write_faults, write_script};
    ghost use Rattle.xl_io.specs.Scripts.{called, next_fails};
    ghost use Rattle.xl_io.specs.Sinks.{FitsPiece, Writes};

    ghost held = { bytes_held };

    ghost faults = { write_faults };

    fn write(&mut self, piece: &[u8]) -> Wrote
        ensures fits { FitsPiece result piece.now }
        ensures bytes { Writes (bytes_held self.old) (bytes_held self.new) result piece.now }
        ensures later { write_faults self.old ≤ write_faults self.new }
        ensures failed { result ≡ Wrote.Failed → Rose (write_faults self.old) (write_faults self.new) }
        ensures exact { result ≢ Wrote.Failed → write_faults self.new ≡ write_faults self.old }
        ensures script { write_script self.new ≡ called (write_script self.old) }
        ensures scripted { IsTrue (next_fails (write_script self.old)) → result ≡ Wrote.Failed }
    {
        if self.failures.next_fails() {
            return Wrote::Failed;
        }
        let count = piece.len().min(self.piece.max(1));
        match self.held.extend_from_slice(&piece[..count]) {
            Ok(()) => Wrote::Took(count),
            Err(_) => {
                self.failures.count_one();
                Wrote::Failed
            }
        }
    }
}

/// A sink that takes all and never fails: its count of faults is 0.
///
/// It keeps nothing and tells nothing. To tell all that it took it would have to hold any number of bytes, and memory
/// can be refused; then it would have to fail, as `MemSink` does, or lose bytes that it had told.
#[derive(Clone, Copy, PartialEq, Eq)]
pub struct Discard;

impl Sink for Discard {
    ghost use Rattle.std.specs.Prelude.{None};

    ghost held = { λ _. None };

    ghost faults = { λ _. 0 };

    fn write(&mut self, piece: &[u8]) -> Wrote {
        Wrote::Took(piece.len())
    }
}
