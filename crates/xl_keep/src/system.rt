ghost use Rattle.std.specs.Prelude.{◌≡◌, ◌<◌, ◌≤◌, IfOk, None, length};

use crate::lockable::Lockable;
use crate::whole::WholeFile;
use std::alloc::Global;
use std::fs::{self, File, Files, OpenFile, OpenOptions};
use std::io::{self, ErrorKind, Read, Write};
use std::os::unix::fs::OpenOptionsExt;
use std::thread;
use std::time::{Clock, Duration};
use xl_base::OutOfMemory;

/// How long it waits where it is asked to, in milliseconds.
const WAITS: u64 = 40;

/// Only its owner may open the file that is locked, and so hold its lock.
const LOCK_MODE: u32 = 0o600;

/// A file of the system. What it holds isn't told.
///
/// A text is written to the file's name with `.new` behind it, made anew, and synced. It is put in its place by a
/// rename, and then the folder is synced. A read syncs the folder too: a rename before it may be seen and not be kept
/// yet. So a stop at any moment leaves the former text or the new one in place, and what was read stays, where the
/// system keeps what it says of these calls.
///
/// Each call fails if a name that it uses is that of a link, a folder, or anything but a plain file. A link would be
/// replaced by a save, and the file that it leads to would keep the former text.
///
/// The first read or write locks the file's name with `.lock` behind it, for as long as this lives, and each fails while
/// another process has it. Between two saves the folder stays open, and it is closed before the new file is made: so a
/// save finds a descriptor when no other is left.
#[derive(Drop)]
pub struct SystemFile<R: Files> {
    files: R,
    locked: Option<R::File>,
    synced: Option<R::File>,
    folder: String,
    place: String,
    beside: String,
    lock: String,
}

impl<R: Files + Drop> SystemFile<R>
where
    R::File: Lockable,
{
    /// The file of this name in the folder, whether there is one or not.
    pub fn new(alloc: Global, files: R, folder: &str, name: &str) -> Result<Self, OutOfMemory> {
        Ok(SystemFile {
            folder: folder.to_string(alloc)?,
            place: format!(in alloc; "{folder}/{name}")?,
            beside: format!(in alloc; "{folder}/{name}.new")?,
            lock: format!(in alloc; "{folder}/{name}.lock")?,
            locked: None,
            synced: None,
            files,
        })
    }

    fn sync_folder(&mut self) -> io::Result<()> {
        let folder = File::open(&self.files, self.folder.as_str())?;
        folder.sync_all()?;
        self.synced = Some(folder);
        Ok(())
    }

    /// Takes the lock, if it hasn't yet.
    fn take_lock(&mut self) -> io::Result<()> {
        if self.locked.is_none() {
            is_there(&self.files, self.lock.as_str())?;
            let file = OpenOptions::new()
                .write(true)
                .create(true)
                .mode(LOCK_MODE)
                .open(&self.files, self.lock.as_str())?;
            file.try_lock()?;
            self.locked = Some(file);
        }
        Ok(())
    }

    /// Makes the new file beside the one in place.
    fn make_beside(&mut self) -> io::Result<R::File> {
        is_there(&self.files, self.beside.as_str())?;
        self.synced = None;
        File::create(&self.files, self.beside.as_str())
    }
}

/// There is a plain file of this name. It fails if something else has the name.
pub(crate) fn is_there<R: Files>(files: &R, path: &str) -> io::Result<bool> {
    match fs::symlink_metadata(files, path) {
        Ok(what) if what.is_file() => Ok(true),
        Ok(_) => Err(io::Error::from(ErrorKind::InvalidData)),
        Err(error) if error.kind() == ErrorKind::NotFound => Ok(false),
        Err(error) => Err(error),
    }
}

impl<R: Files + Clock + Drop> WholeFile for SystemFile<R>
where
    R::File: Lockable,
{
    ghost shows = { λ _. None };

    fn read(&mut self, room: &mut [u8]) -> io::Result<Option<usize>> {
        self.take_lock()?;
        if !is_there(&self.files, self.place.as_str())? {
            return Ok(None);
        }
        let mut file = File::open(&self.files, self.place.as_str())?;
        let count = read_whole(&mut file, room)?;
        self.sync_folder()?;
        Ok(Some(count))
    }

    fn write_beside(&mut self, text: &[u8]) -> io::Result<()> {
        self.take_lock()?;
        let mut file = self.make_beside()?;
        file.write_all(text)?;
        file.sync_all()
    }

    fn put_in_place(&mut self) -> io::Result<()> {
        fs::rename(&self.files, self.beside.as_str(), self.place.as_str())?;
        self.sync_folder()
    }

    fn wait(&mut self) {
        thread::sleep(&self.files, Duration::from_millis(WAITS));
    }
}

/// Reads to the end of the file, which must come before the end of the room.
pub(crate) fn read_whole<F: Read>(file: &mut F, room: &mut [u8]) -> io::Result<usize>
    ensures same { length room.new ≡ length room.old }
    ensures fits { IfOk result (λ n. n < length room.new) }
{
    let mut filled = 0;
    while filled < room.len() {
        let count = read_uninterrupted(file, &mut room[filled..])?;
        if count == 0 {
            return Ok(filled);
        }
        filled += count;
    }
    Err(io::Error::from(ErrorKind::FileTooLarge))
}

/// Reads again after each read that was interrupted.
fn read_uninterrupted<F: Read>(file: &mut F, room: &mut [u8]) -> io::Result<usize>
    ensures same { length room.new ≡ length room.old }
    ensures fits { IfOk result (λ count. count ≤ length room.new) }
{
    for _ in 0..u64::MAX {
        match file.read(room) {
            Err(error) if error.kind() == ErrorKind::Interrupted => {}
            answer => return answer,
        }
    }
    Err(io::Error::from(ErrorKind::Interrupted))
}
