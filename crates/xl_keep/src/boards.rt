ghost use Rattle.std.specs.Prelude.{◌≡◌, None, IfOk};

use crate::journals::new_journal;
use crate::{FileBoard, Lockable, SystemFile};
use std::alloc::Global;
use std::fs::Files;
use std::time::Clock;
use xl_base::{Millis, OutOfMemory};
use xl_board::{Board, Boards, NotOpened};
use xl_io::{Failed, StdSink};

/// What opens a board in a file of the system, once, and files for journals: a board takes its way to the system's files
/// along, and a journal doesn't.
#[derive(Drop)]
pub struct SystemBoards<R> {
    alloc: Global,
    files: Option<R>,
    journals: R,
    faults: u64,
}

impl<R> SystemBoards<R> {
    /// Both are ways to the same files.
    pub fn new(alloc: Global, files: R, journals: R) -> Self {
        SystemBoards {
            alloc,
            files: Some(files),
            journals,
            faults: 0,
        }
    }
}

/// The folder of a path, and the name in it.
fn parts_of(path: &str) -> (&str, &str) {
    match path.rsplit_once('/') {
        Some(("", name)) => ("/", name),
        Some(parts) => parts,
        None => (".", path),
    }
}

/// The board of a file of the system at a path.
fn board_at<R: Files + Clock + Drop>(
    alloc: Global,
    files: R,
    path: &str,
) -> Result<FileBoard<SystemFile<R>>, NotOpened>
where
    R::File: Lockable,
    ensures { IfOk result (λ board. ⟦<FileBoard<SystemFile<R>> as Board>⟧.stands board ≡ None) }
{
    let (folder, name) = parts_of(path);
    match SystemFile::new(alloc, files, folder, name) {
        Ok(file) => match FileBoard::open(file) {
            Ok(board) => Ok(board),
            Err(Failed) => Err(NotOpened::Failed),
        },
        Err(OutOfMemory) => Err(NotOpened::OutOfMemory),
    }
}

impl<R: Files + Clock + Drop + Send> Boards for SystemBoards<R>
where
    R::File: Lockable + Send,
{
    type D = FileBoard<SystemFile<R>>;

    type J = StdSink<R::File>;

    ghost stands = { λ _ _. None };

    ghost faults = { λ boards. boards.faults };

    /// It fails from the second call on, and if what stands at the path is no plain file, or nothing can be written
    /// beside it.
    fn open(&mut self, path: &str) -> Result<FileBoard<SystemFile<R>>, NotOpened> {
        let opened = match self.files.take() {
            Some(files) => board_at(self.alloc, files, path),
            None => Err(NotOpened::Failed),
        };
        if let Err(NotOpened::Failed) = opened {
            self.faults = self.faults.saturating_add(1);
        }
        opened
    }

    /// It fails if what has the name is no plain file, or one that another process has locked, and if no new one can be
    /// made.
    fn open_journal(&mut self, path: &str, now: Millis) -> Result<StdSink<R::File>, NotOpened> {
        let opened = new_journal(self.alloc, &self.journals, path, now);
        if let Err(NotOpened::Failed) = opened {
            self.faults = self.faults.saturating_add(1);
        }
        opened
    }

    fn faults(&self) -> u64 {
        self.faults
    }
}
