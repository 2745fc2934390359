use std::fs::File;
use std::io;

/// A file that can be locked, for as long as it is open.
pub trait Lockable {
    /// Locks it, or fails while another process has it.
    fn try_lock(&self) -> io::Result<()>;
}

impl Lockable for File {
    fn try_lock(&self) -> io::Result<()> {
        Ok(File::try_lock(self)?)
    }
}
