ghost use Rattle.std.specs.Prelude.{◌≡◌, ◌+◌, ◌-◌, ◌≤◌, ◌++◌, [], false, length, IfOk};
ghost use Rattle.xl_wire.specs.Feeding.{held_in, taken_of, after_push, offer_of};

use crate::{LONGEST_FRAME, Parted, Raw, WireRefusal, split};
use std::alloc::Global;
use std::marker::Model;
use xl_base::{OutOfMemory, put};

/// What a feed hands out.
#[derive(Clone, Copy)]
pub enum Next<'a> {
    /// The next whole frame, and its bytes.
    Frame(Raw<'a>, &'a [u8]),
    /// Less than a frame is held: this many bytes lack, first of the length and then of the frame.
    Need(usize),
    /// What is held begins no frame: Magic, Version, Kind or Length. No more is taken.
    Refused(WireRefusal),
}

/// Cuts a stream that comes in pieces into frames. It holds at most the bytes of the longest frame.
#[derive(Drop)]
pub struct Feed {
    bytes: Vec<u8>,
    start: usize,
    end: usize,
    refused: bool,
}

impl Model for Feed {
    ghost use Rattle.xl_wire.specs.Feeding.{Fed, held_in, IsFed};

    ghost Value = { Fed };

    ghost view = { λ f. record { held = held_in f.bytes.items f.start f.end; refused = f.refused } };

    ghost invariant = { λ f. IsFed f.bytes.items f.start f.end };
}

impl Feed {
    ghost use Rattle.std.specs.Borrow.{sem};
    ghost use Rattle.xl_wire.specs.Offers.{offer, GoesOn, IsSplit};

    /// A feed that holds nothing. No later call takes memory.
    pub fn open(alloc: Global) -> Result<Feed, OutOfMemory>
        ensures { IfOk result (λ feed. feed ≡ record { held = []; refused = false }) }
    {
        Ok(Feed {
            bytes: vec![in alloc; 0; LONGEST_FRAME]?,
            start: 0,
            end: 0,
            refused: false,
        })
    }

    /// Takes as many bytes of the piece as there is room for, and answers how many. After a refusal it takes none.
    pub fn push(&mut self, piece: &[u8]) -> usize
        ensures taken { result ≡ taken_of self.old piece.now }
        ensures held { self.new ≡ after_push self.old piece.now }
    {
        if self.refused {
            return 0;
        }
        let held = self.end - self.start;
        let count = piece.len().min(LONGEST_FRAME - held);
        self.start = add(&mut self.bytes, self.start, self.end, &piece[..count]);
        self.end = self.start + held + count;
        count
    }

    /// Hands out the next frame, once.
    ///
    /// After a refusal it answers the same.
    pub fn next(&mut self) -> Next<'_>
        ensures answer { offer result ≡ offer_of self.old }
        // So that nobody needs to split the bytes again.
        ensures parts { IsSplit result }
        ensures* after { sem 𝓛 (GoesOn self.entry) }
    {
        let held = &self.bytes[self.start..self.end];
        match split(held) {
            Parted::Whole(raw) => {
                self.start += raw.length;
                Next::Frame(raw, &held[..raw.length])
            }
            Parted::Need(lack) => Next::Need(lack),
            Parted::Refused(refusal) => {
                self.refused = true;
                Next::Refused(refusal)
            }
        }
    }
}

/// Puts the piece behind what lies between two places, and answers where that begins then.
fn add(bytes: &mut [u8], start: usize, end: usize, piece: &[u8]) -> usize
    requires ordered { start ≤ end }
    requires within { end ≤ length bytes.old }
    requires fits { end - start + length piece.now ≤ length bytes.old }
    ensures held { held_in bytes.new result (result + (end - start) + length piece.now)
        ≡ held_in bytes.old start end ++ piece.now }
    ensures room { result + (end - start) + length piece.now ≤ length bytes.old }
{
    let from = make_room(bytes, start, end, piece.len());
    put(bytes, from + (end - start), piece);
    from
}

/// Makes room for so many bytes behind those between two places, which move to the front where room lacks, and
/// answers where they begin then.
fn make_room(bytes: &mut [u8], start: usize, end: usize, count: usize) -> usize
    requires ordered { start ≤ end }
    requires within { end ≤ length bytes.old }
    requires fits { end - start + count ≤ length bytes.old }
    ensures held { held_in bytes.new result (result + (end - start)) ≡ held_in bytes.old start end }
    ensures room { result + (end - start) + count ≤ length bytes.old }
{
    if count <= bytes.len() - end {
        return start;
    }
    bytes.copy_within(start..end, 0);
    0
}
