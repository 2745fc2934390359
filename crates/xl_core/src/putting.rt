// A frame is put at a place of a room.
ghost use Rattle.std.specs.Prelude.{◌≤◌, Some, length};
ghost use Rattle.xl_core.specs.Draining.{IsPut};

/// What became of an item that is to be sent.
#[derive(Clone, Copy, PartialEq, Eq)]
pub enum Put {
    /// Its frame, of this many bytes, was put into the room.
    Written(usize),
    /// It isn't sent.
    PassedOver,
    /// The room is too short for its frame, and is as it was.
    NoRoom,
}

/// Puts a frame at a place of the room, unless the room is too short for it.
pub fn put_frame(frame: &[u8], at: usize, room: &mut [u8]) -> Put
    requires { at ≤ length room.old }
    ensures { IsPut (Some frame.now) at room.old room.new result }
{
    if room.len() - at < frame.len() {
        return Put::NoRoom;
    }
    room[at..at + frame.len()].copy_from_slice(frame);
    Put::Written(frame.len())
}
