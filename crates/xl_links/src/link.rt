ghost use Rattle.std.specs.Prelude.{◌≡◌, length};
ghost use Rattle.xl_links.specs.Links.{Wire, Opens, Permits, Reads, Writes};

pub mod plain;
pub mod scripted;

use xl_io::Wrote;

/// What an opening answers.
#[derive(Clone, Copy, PartialEq, Eq)]
pub enum Opening {
    Open,
    /// No peer is there now.
    NotYet,
    /// The count of faults rose.
    Failed,
}

/// What a read answers.
#[derive(Clone, Copy, PartialEq, Eq)]
pub enum LinkRead {
    /// This many bytes stand at the front of the room.
    Got(usize),
    /// No byte came within one second.
    Idle,
    /// No more bytes come on this connection.
    End,
    /// The count of faults rose, and no byte was given.
    Failed,
}

/// How a frame was judged that a link gave.
#[derive(Clone, Copy, PartialEq, Eq)]
pub enum Judgement {
    /// It carries a right tag, and tells something new.
    Fresh,
    /// It carries a right tag, and may be a copy of one that was said before.
    Known,
    /// Its sender stands on no list, so nobody tested its tag.
    Unlisted,
    /// It is for another node, or carries a wrong tag.
    Forged,
}

/// A link to one member, over which one connection after the other may be held.
pub trait Link {
    /// What it has left, took and answered, if it tells that, and how often a call has failed.
    ghost shows: { Self → Wire };

    /// Begins a connection.
    fn open(&mut self) -> Opening
        ensures { Opens (shows self.old) result (shows self.new) };

    /// Reads the next bytes to the front of the room, at least one if there is room.
    fn read(&mut self, room: &mut [u8]) -> LinkRead
        ensures same { length room.new ≡ length room.old }
        ensures read { Reads (shows self.old) result room.new (shows self.new) };

    /// Takes bytes from the front of the piece, at least one if there is one.
    fn write(&mut self, piece: &[u8]) -> Wrote
        ensures { Writes (shows self.old) result piece.now (shows self.new) };

    /// Whether its peer may be spoken to now. It may not while nothing is known of it: what is said then would be lost
    /// to whoever calls in a member's place.
    fn may_tell(&mut self) -> bool
        ensures { Permits (shows self.old) result (shows self.new) };

    /// Hears how the next of the frames was judged that it gave, since it knows no key itself.
    fn judged(&mut self, judgement: Judgement)
        ensures { shows self.new ≡ shows self.old };
}
