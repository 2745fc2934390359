ghost use Rattle.std.specs.Prelude.{◌≡◌, ◌≢◌, ◌≤◌, None, IfSome, length};
ghost use Rattle.xl_base.specs.Faults.{Rose};
ghost use Rattle.xl_io.specs.Sources.{FitsRoom, Reads};
ghost use Rattle.xl_io.specs.Streams.{Gave, ReadsOn};

use crate::{Piece, Source};
use std::io::{ErrorKind, Read};

/// A source over any reader. A read that is interrupted is made again, and one that gives no byte is the end. What it
/// has left isn't told, so its end comes wherever the reader says so.
#[derive(Drop)]
pub struct StdSource<R> {
    reader: R,
    faults: u64,
}

impl<R: Read> StdSource<R> {
    pub fn new(reader: R) -> Self
        ensures { ⟦<StdSource<R> as Source>⟧.faults result ≡ 0 }
    {
        StdSource { reader, faults: 0 }
    }
}

impl<R: Read> Source for StdSource<R> {
    ghost left = { λ _. None };

    ghost faults = { λ s. s.faults };

    fn read(&mut self, room: &mut [u8]) -> Piece
        ensures fits { FitsRoom result room.new }
        ensures bytes { Reads None None result room.new }
        ensures later { self.old.faults ≤ self.new.faults }
        ensures failed { result ≡ Piece.Failed → Rose self.old.faults self.new.faults }
        ensures exact { result ≢ Piece.Failed → self.new.faults ≡ self.old.faults }

        // By what the reader tells.
        ensures stream { ReadsOn (R.remaining self.old.reader) (R.remaining self.new.reader) result room.new }
    {
        match read_uninterrupted(&mut self.reader, room) {
            Some(0) => Piece::End,
            Some(count) => Piece::Got(count),
            None => {
                self.faults = self.faults.saturating_add(1);
                Piece::Failed
            }
        }
    }
}

/// Reads again after each read that was interrupted, and answers how many bytes came, or None if the reader failed.
fn read_uninterrupted<R: Read>(reader: &mut R, room: &mut [u8]) -> Option<usize>
    ensures fits { IfSome result (λ count. count ≤ length room.new) }
    ensures stream { Gave (R.remaining reader.old) (R.remaining reader.new) result room.new }
{
    for _ in 0..u64::MAX {
        match reader.read(room) {
            Ok(count) => return Some(count),
            Err(error) if error.kind() == ErrorKind::Interrupted => {}
            Err(_) => return None,
        }
    }
    None
}
