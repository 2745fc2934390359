ghost use Rattle.std.specs.Prelude.{◌≡◌, ◌≢◌, ℕ, ◌≤◌, List, length};
ghost use Rattle.std.specs.declared.option.Option.{Option};
ghost use Rattle.xl_base.specs.Faults.{Rose};
ghost use Rattle.xl_io.specs.Sources.{FitsRoom, Reads};

pub mod memory;
pub mod standard;

/// What a read answers.
#[derive(Clone, Copy, PartialEq, Eq)]
pub enum Piece {
    /// This many bytes stand at the front of the room.
    Got(usize),
    /// No more bytes come.
    End,
    /// The count of faults rose, and no byte was given.
    Failed,
}

/// Where bytes come from.
pub trait Source {
    /// The bytes that it still has to give, if it tells them.
    ghost left: { Self → Option (List ℕ) };

    /// How often a read has failed, up to the greatest `u64`.
    ghost faults: { Self → ℕ };

    /// Reads the next bytes to the front of the room, at least one if there is room.
    fn read(&mut self, room: &mut [u8]) -> Piece
        ensures fits { FitsRoom result room.new }
        ensures bytes { Reads (left self.old) (left self.new) result room.new }
        ensures later { faults self.old ≤ faults self.new }
        ensures failed { result ≡ Piece.Failed → Rose (faults self.old) (faults self.new) }
        ensures exact { result ≢ Piece.Failed → faults self.new ≡ faults self.old };
}
