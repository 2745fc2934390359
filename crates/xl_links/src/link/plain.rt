ghost use Rattle.std.specs.Prelude.{◌≡◌, ◌<◌, ◌≤◌, length, vec_len};

use crate::link::{Judgement, Link, LinkRead, Opening};
use std::alloc::Global;
use xl_io::{Discard, Sink, Wrote};

/// A link in memory that never fails: its count of faults is 0. It is open at once, and a connection ends if no byte is
/// left. It takes what is written, its peer may always be spoken to, and it tells nothing of that, nor of its openings
/// and reads.
#[derive(Drop)]
pub struct PlainLink {
    bytes: Vec<u8>,
    given: usize,
    piece: usize,
    ghost in_range: { given ≤ vec_len bytes },
}

impl PlainLink {
    ghost use Rattle.std.specs.Prelude.{[]};
    ghost use Rattle.xl_links.specs.Memory.{piece_of, plain_given, plain_left, plain_piece};

    /// A link with these bytes to give, in pieces of at most `piece` bytes, 0 being read as 1.
    pub fn new(bytes: Vec<u8>, piece: usize) -> Self
        ensures left { plain_left result ≡ bytes.items }
        ensures piece { plain_piece result ≡ piece }
    {
        PlainLink {
            bytes,
            given: 0,
            piece,
        }
    }

    /// A link to a member that says nothing.
    pub fn silent(alloc: Global) -> Self
        ensures { plain_left result ≡ [] }
    {
        Self::new(Vec::new(alloc), 1)
    }

    /// How many bytes it gave.
    pub(crate) fn given(&self) -> usize
        ensures { result ≡ plain_given self.now }
    {
        self.given
    }

    /// How long a piece is, of so many bytes that there are.
    pub(crate) fn piece_of(&self, bytes: usize) -> usize
        ensures { result ≡ piece_of (plain_piece self.now) bytes }
    {
        bytes.min(self.piece.max(1))
    }
}

impl Link for PlainLink {
    ghost use Rattle.std.specs.Prelude.{ℕ, min, true};
    ghost use Rattle.xl_links.specs.declared.link.LinkRead.TheVariants as read;
    ghost use Rattle.xl_links.specs.declared.script.Course.TheVariants as course;
    ghost use Rattle.xl_links.specs.Links.{Opens, Permits, Reads};
    ghost use Rattle.xl_links.specs.Memory.{course_of, course_over, piece_of, plain_bytes, plain_left, plain_piece, plain_wire};

    ghost shows = { plain_wire };

    fn open(&mut self) -> Opening
        ensures opens { Opens (plain_wire self.old) result (plain_wire self.new) }
        ensures open { result ≡ Opening.Open }
        ensures kept { plain_piece self.new ≡ plain_piece self.old }
    {
        Opening::Open
    }

    fn read(&mut self, room: &mut [u8]) -> LinkRead
        ensures same { length room.new ≡ length room.old }
        ensures read { Reads (plain_wire self.old) result room.new (plain_wire self.new) }
        ensures course { 0 < length room.old → course_of result ≡ course_over (plain_left self.old) course.Gives }
        ensures piece { (n : ℕ) → result ≡ read.Got n
            → n ≡ piece_of (plain_piece self.old) (min (length (plain_left self.old)) (length room.old)) }
        ensures kept { plain_piece self.new ≡ plain_piece self.old }
        ensures bytes { plain_bytes self.new ≡ plain_bytes self.old }
    {
        let left = &self.bytes[self.given..];
        if left.is_empty() {
            return LinkRead::End;
        }
        let count = self.piece_of(left.len().min(room.len()));
        room[..count].copy_from_slice(&left[..count]);
        self.given += count;
        LinkRead::Got(count)
    }

    fn write(&mut self, piece: &[u8]) -> Wrote {
        Discard.write(piece)
    }

    fn may_tell(&mut self) -> bool
        ensures permits { Permits (plain_wire self.old) result (plain_wire self.new) }
        ensures always { result ≡ true }
        ensures kept { plain_piece self.new ≡ plain_piece self.old }
    {
        true
    }

    fn judged(&mut self, _judgement: Judgement) {}
}
