ghost use Rattle.std.specs.Prelude.{◌≡◌, IfOk, None};

use crate::lockable::Lockable;
use crate::system::is_there;
use std::alloc::Global;
use std::fs::{self, Files, OpenFile, OpenOptions};
use std::io::{self, ErrorKind};
use std::os::unix::fs::OpenOptionsExt;
use xl_base::Millis;
use xl_board::NotOpened;
use xl_io::{Sink, StdSink};

/// A journal may hold keys, so only its owner may read it.
const JOURNAL_MODE: u32 = 0o600;

/// A new file of this name, for a journal. A file that had the name is kept under another one, which the moment makes.
///
/// It fails if a link, a folder, or anything but a plain file has the name, if another process writes its journal to that
/// file, or if the other name is taken.
pub(crate) fn new_journal<R: Files>(
    alloc: Global,
    files: &R,
    path: &str,
    now: Millis,
) -> Result<StdSink<R::File>, NotOpened>
where
    R::File: Lockable,
    ensures { IfOk result (λ sink. ⟦<StdSink<R::File> as Sink>⟧.held sink ≡ None) }
{
    match format!(in alloc; "{path}.{now}") {
        Ok(aside) => match made_anew(files, path, aside.as_str()) {
            Ok(file) => Ok(StdSink::new(file)),
            Err(_) => Err(NotOpened::Failed),
        },
        Err(_) => Err(NotOpened::OutOfMemory),
    }
}

/// The new file, locked for as long as it is open.
fn made_anew<R: Files>(files: &R, path: &str, aside: &str) -> io::Result<R::File>
where
    R::File: Lockable,
{
    if is_there(files, path)? {
        put_aside(files, path, aside)?;
    }
    let file = OpenOptions::new()
        .write(true)
        .create_new(true)
        .mode(JOURNAL_MODE)
        .open(files, path)?;
    file.try_lock()?;
    Ok(file)
}

/// Gives a file the other name, unless a process has it locked.
fn put_aside<R: Files>(files: &R, path: &str, aside: &str) -> io::Result<()>
where
    R::File: Lockable,
{
    let former = OpenOptions::new().write(true).open(files, path)?;
    former.try_lock()?;
    if is_there(files, aside)? {
        return Err(io::Error::from(ErrorKind::AlreadyExists));
    }
    fs::rename(files, path, aside)
}
