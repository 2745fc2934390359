ghost use Rattle.std.specs.Prelude.{◌≡◌, ◌<◌, IfOk, IfSome, is_ok, length};
ghost use Rattle.std.specs.declared.option.Option.{Option};
ghost use Rattle.xl_keep.specs.Files.{Places, Told, Reads, Writes, Replaces};

use std::io;

/// A file that is only ever replaced as a whole: a new text is written beside it, and then put in its place.
pub trait WholeFile {
    /// The text that a stop at this moment leaves in place, and the one beside it, if they are known.
    ghost shows: { Self → Option Places };

    /// Reads the whole text to the front of the room, and answers how long it is, or None if there is no file. It
    /// fails if the text leaves no room.
    fn read(&mut self, room: &mut [u8]) -> io::Result<Option<usize>>
        ensures same { length room.new ≡ length room.old }
        ensures fits { IfOk result (λ answer. IfSome answer (λ n. n < length room.new)) }
        ensures reads { Told (Reads result room.new) (shows self.old) (shows self.new) };

    /// Writes a text beside it, so that a stop leaves all of it there.
    fn write_beside(&mut self, text: &[u8]) -> io::Result<()>
        ensures { Told (Writes text.now (is_ok result)) (shows self.old) (shows self.new) };

    /// Puts the text that stands beside it in its place, so that a stop leaves it there.
    fn put_in_place(&mut self) -> io::Result<()>
        ensures { Told (Replaces (is_ok result)) (shows self.old) (shows self.new) };

    /// Waits a little, before a call that failed is made again.
    fn wait(&mut self)
        ensures { shows self.new ≡ shows self.old };
}
