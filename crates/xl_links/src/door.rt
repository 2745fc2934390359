ghost use Rattle.std.specs.Prelude.{◌≡◌, ◌≤◌, length, OnOk, OnErr};
ghost use Rattle.std.specs.Io.KnownBytes.{append_known};
ghost use Rattle.xl_base.specs.Faults.{Rose};
ghost use Rattle.xl_io.specs.Sinks.{GrewByFront};
ghost use Rattle.xl_links.specs.Doors.{Comes, Doorway};

pub mod memory;

use xl_io::Failed;

/// What a door gives of its clients' lines.
#[derive(Clone, Copy, PartialEq, Eq)]
pub enum Arrival {
    /// A line: so many bytes at the front of the room, without its newline.
    Line(usize),
    /// A line of more bytes than the room has. None of them is given.
    Long,
    /// No line ended within one second.
    Idle,
    /// The count of faults rose, and no line was given.
    Failed,
}

/// Where clients come in, say lines, and hear an answer to each.
pub trait Door {
    /// What its clients have left to say and what they took, if it tells that, and how often a call has failed.
    ghost shows: { Self → Doorway };

    /// Gives the next line of a client.
    fn next(&mut self, room: &mut [u8]) -> Arrival
        ensures same { length room.new ≡ length room.old }
        ensures comes { Comes (shows self.old) result room.new (shows self.new) };

    /// Answers the client whose line was given last. It fails if that client doesn't take all of the text.
    fn answer(&mut self, text: &[u8]) -> Result<(), Failed>
        ensures whole { OnOk result ((shows self.new).took ≡ append_known (shows self.old).took text.now) }
        ensures front { GrewByFront (shows self.old).took (shows self.new).took text.now }
        ensures left { (shows self.new).left ≡ (shows self.old).left }
        ensures later { (shows self.old).faults ≤ (shows self.new).faults }
        ensures failed { OnErr result (Rose (shows self.old).faults (shows self.new).faults) }
        ensures exact { OnOk result ((shows self.new).faults ≡ (shows self.old).faults) };
}
