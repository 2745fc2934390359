ghost use Rattle.std.specs.Prelude.{◌≡◌, ◌<◌, IfOk, length};

use crate::system::read_whole;
use std::fs::{self, File, Files};
use std::io::{self, ErrorKind};
use xl_io::Failed;

/// Reads the whole text of a file that others replace, to the front of the room, and answers how long it is.
///
/// It fails if there is no plain file at the path and no link to one, if that can't be read, or if it leaves no room.
pub fn read_text<R: Files>(files: &R, path: &str, room: &mut [u8]) -> Result<usize, Failed>
    ensures same { length room.new ≡ length room.old }
    ensures fits { IfOk result (λ n. n < length room.new) }
{
    match read_plain(files, path, room) {
        Ok(count) => Ok(count),
        Err(_) => Err(Failed),
    }
}

/// The same. What isn't a plain file isn't opened, since that may wait for ever.
fn read_plain<R: Files>(files: &R, path: &str, room: &mut [u8]) -> io::Result<usize>
    ensures same { length room.new ≡ length room.old }
    ensures fits { IfOk result (λ n. n < length room.new) }
{
    if !fs::metadata(files, path)?.is_file() {
        return Err(io::Error::from(ErrorKind::InvalidInput));
    }
    let mut file = File::open(files, path)?;
    read_whole(&mut file, room)
}
