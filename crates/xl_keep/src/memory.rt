ghost use Rattle.std.specs.Prelude.{◌≡◌, ◌<◌, IfOk, IfSome, None, Some, length};
ghost use Rattle.xl_keep.specs.Memory.{places_of};

use crate::whole::WholeFile;
use std::alloc::Global;
use std::io::{self, ErrorKind};

/// A file in memory, of whose calls some fail: those that are listed, by their numbers from 1 on, and those for which
/// memory runs out.
#[derive(Drop)]
pub struct MemFile {
    alloc: Global,
    stands: Option<Vec<u8>>,
    beside: Option<Vec<u8>>,
    failing: Vec<u64>,
    /// Of the listed calls those that put the text in its place all the same.
    placed: Vec<u64>,
    calls: u64,
}

impl MemFile {
    /// No file yet.
    pub fn new(alloc: Global, failing: Vec<u64>, placed: Vec<u64>) -> Self
        ensures { places_of result ≡ record { stands = None; beside = None } }
    {
        MemFile {
            alloc,
            stands: None,
            beside: None,
            failing,
            placed,
            calls: 0,
        }
    }

    /// Counts a call, and says whether it fails.
    fn fails(&mut self) -> bool
        ensures { places_of self.new ≡ places_of self.old }
    {
        self.calls = self.calls.saturating_add(1);
        self.failing.contains(&self.calls)
    }
}

impl WholeFile for MemFile {
    ghost shows = { λ file. Some (places_of file) };

    fn read(&mut self, room: &mut [u8]) -> io::Result<Option<usize>> {
        if self.fails() {
            return Err(io::Error::from(ErrorKind::Other));
        }
        match &self.stands {
            None => Ok(None),
            Some(text) if text.len() < room.len() => {
                room[..text.len()].copy_from_slice(text);
                Ok(Some(text.len()))
            }
            Some(_) => Err(io::Error::from(ErrorKind::FileTooLarge)),
        }
    }

    fn write_beside(&mut self, text: &[u8]) -> io::Result<()> {
        self.beside = None;
        if self.fails() {
            return Err(io::Error::from(ErrorKind::Other));
        }
        self.beside = Some(text.to_vec(self.alloc)?);
        Ok(())
    }

    fn put_in_place(&mut self) -> io::Result<()> {
        let fails = self.fails();
        if !fails || self.placed.contains(&self.calls) {
            self.stands = self.beside.take();
        }
        if fails {
            Err(io::Error::from(ErrorKind::Other))
        } else {
            Ok(())
        }
    }

    /// It doesn't wait.
    fn wait(&mut self) {}
}
