ghost use Rattle.std.specs.Prelude.{◌≡◌, ◌≤◌, List, ℕ, Some, length, drop, vec_len};
ghost use Rattle.xl_io.specs.Sources.{FitsRoom, Reads};

use crate::failures::Failures;
use crate::{Piece, Source};

/// Bytes in memory, given in pieces of at most a stated length. It never fails: its count of faults is 0.
#[derive(Drop)]
pub struct PlainSource {
    bytes: Vec<u8>,
    given: usize,
    piece: usize,
    ghost in_range: { given ≤ vec_len bytes },
}

impl PlainSource {
    /// A piece of 0 bytes is read as one of 1.
    pub fn new(bytes: Vec<u8>, piece: usize) -> Self
        ensures { ⟦<PlainSource as Source>⟧.left result ≡ Some bytes.items }
    {
        PlainSource {
            bytes,
            given: 0,
            piece,
        }
    }
}

impl Source for PlainSource {
    ghost left = { λ s. Some (drop s.given s.bytes.items) };

    ghost faults = { λ _. 0 };

    fn read(&mut self, room: &mut [u8]) -> Piece {
        let left = &self.bytes[self.given..];
        if left.is_empty() {
            return Piece::End;
        }
        let count = left.len().min(room.len()).min(self.piece.max(1));
        room[..count].copy_from_slice(&left[..count]);
        self.given += count;
        Piece::Got(count)
    }
}

/// Bytes in memory, and the reads that are to fail.
#[derive(Drop)]
pub struct MemSource {
    source: PlainSource,
    failures: Failures,
}

impl MemSource {
    ghost use Rattle.xl_io.specs.Memory.{read_script};
    ghost use Rattle.xl_io.specs.Scripts.{script_of};

    /// Pieces have at most `piece` bytes, 0 being read as 1, and the reads whose numbers, from 1, are listed fail.
    pub fn new(bytes: Vec<u8>, piece: usize, failing: Vec<u64>) -> Self
        ensures left { ⟦<MemSource as Source>⟧.left result ≡ Some bytes.items }
        ensures faults { ⟦<MemSource as Source>⟧.faults result ≡ 0 }
        ensures script { read_script result ≡ script_of failing.items }
    {
        MemSource {
            source: PlainSource::new(bytes, piece),
            failures: Failures::new(failing),
        }
    }
}

impl Source for MemSource {
    ghost use Rattle.std.specs.Prelude.{◌↔◌, ◌≢◌, IsTrue};
    ghost use Rattle.xl_base.specs.Faults.{Rose};
    ghost use Rattle.xl_io.specs.Memory.{bytes_left, read_faults, read_script};
    ghost use Rattle.xl_io.specs.Scripts.{called, next_fails};

    ghost left = { bytes_left };

    ghost faults = { read_faults };

    fn read(&mut self, room: &mut [u8]) -> Piece
        ensures fits { FitsRoom result room.new }
        ensures bytes { Reads (bytes_left self.old) (bytes_left self.new) result room.new }
        ensures later { read_faults self.old ≤ read_faults self.new }
        ensures failed { result ≡ Piece.Failed → Rose (read_faults self.old) (read_faults self.new) }
        ensures exact { result ≢ Piece.Failed → read_faults self.new ≡ read_faults self.old }
        ensures script { read_script self.new ≡ called (read_script self.old) }
        ensures scripted { (result ≡ Piece.Failed) ↔ IsTrue (next_fails (read_script self.old)) }
    {
        if self.failures.next_fails() {
            return Piece::Failed;
        }
        self.source.read(room)
    }
}
