ghost use Rattle.std.specs.Prelude.{◌≡◌, ◌≤◌, is_ok, option_map, IfOk};
ghost use Rattle.xl_board.specs.Boards.{Shows};
ghost use Rattle.xl_keep.specs.Boards.{shown_in};
ghost use Rattle.xl_keep.specs.Saves.{counted};

use crate::whole::WholeFile;
use std::io;
use xl_board::Board;
use xl_io::Failed;

/// The room for the text that a board is opened with. One that says how a node is has at most 64 members.
const ROOM: usize = 16_384;

/// A board in a file, which holds the text and nothing else. A call takes no memory, and isn't made again if it fails:
/// the next text comes soon.
#[derive(Drop)]
pub struct FileBoard<F> {
    file: F,
    faults: u64,
}

impl<F: WholeFile + Drop> FileBoard<F> {
    /// A board over this file, in which a text of an earlier run may stand.
    pub fn new(file: F) -> Self
        ensures stands { ⟦<FileBoard<F> as Board>⟧.stands result ≡ shown_in (F.shows file) }
        ensures faults { ⟦<FileBoard<F> as Board>⟧.faults result ≡ 0 }
    {
        FileBoard { file, faults: 0 }
    }

    /// A board over this file, once an empty text was written beside: a path at which nothing can be shown is no board's.
    /// It fails too if the text in place is longer than any that says how a node is.
    pub fn open(file: F) -> Result<Self, Failed>
        ensures stands { IfOk result (λ board. ⟦<FileBoard<F> as Board>⟧.stands board ≡ shown_in (F.shows file)) }
        ensures faults { IfOk result (λ board. ⟦<FileBoard<F> as Board>⟧.faults board ≡ 0) }
    {
        let mut board = FileBoard::new(file);
        match board.try_out() {
            Ok(()) => Ok(board),
            Err(_) => Err(Failed),
        }
    }

    /// Reads the text in place, and writes an empty one beside.
    fn try_out(&mut self) -> io::Result<()>
        ensures shows { shown_in (F.shows self.new.file) ≡ shown_in (F.shows self.old.file) }
        ensures faults { self.new.faults ≡ self.old.faults }
    {
        let mut room = [0; ROOM];
        self.file.read(&mut room)?;
        self.file.write_beside(b"")
    }

    /// Writes the text beside the file, and puts it in its place.
    fn replace(&mut self, text: &[u8]) -> io::Result<()>
        ensures shows { Shows text.now (is_ok result) (shown_in (F.shows self.old.file)) (shown_in (F.shows self.new.file)) }
        ensures faults { self.new.faults ≡ self.old.faults }
    {
        self.file.write_beside(text)?;
        self.file.put_in_place()
    }
}

impl<F: WholeFile + Drop> Board for FileBoard<F> {
    ghost stands = { λ board. shown_in (F.shows board.file) };

    ghost faults = { λ board. board.faults };

    /// It fails if the text can't be written beside the file, or not put in its place.
    fn show(&mut self, text: &[u8]) -> Result<(), Failed> {
        match self.replace(text) {
            Ok(()) => Ok(()),
            Err(_) => {
                self.faults = self.faults.saturating_add(1);
                Err(Failed)
            }
        }
    }

    fn faults(&self) -> u64 {
        self.faults
    }
}
