ghost use Rattle.std.specs.Prelude.{◌≡◌, length, IfSome};
ghost use Rattle.xl_io.specs.Memory.{bytes_held};
ghost use Rattle.xl_page.specs.Pages.{Handed};

use xl_io::MemSink;

/// Puts what the sink holds at the front of the room, if it fits there, and answers how many bytes it holds.
pub fn hand_out(sink: &MemSink, room: &mut [u8]) -> usize
    ensures size { length room.new ≡ length room.old }
    ensures handed { IfSome (bytes_held sink.now) (λ text. Handed text result room.new) }
{
    let held = sink.held();
    if held.len() <= room.len() {
        room[..held.len()].copy_from_slice(held);
    }
    held.len()
}
