ghost use Rattle.std.specs.Prelude.{◌≡◌, ◌≤◌, Some, None, option_map};
ghost use Rattle.xl_base.specs.Counts.{one_more};
ghost use Rattle.xl_base.specs.Faults.{Rose};

use crate::{Board, Boards, NotOpened};
use std::alloc::Global;
use xl_base::Millis;
use xl_io::{Failed, MemSink};

/// A board in memory, of whose calls some fail: those that are listed, by their numbers from 1 on, and those for which
/// memory runs out. A call that fails leaves the former text.
#[derive(Drop)]
pub struct MemBoard {
    alloc: Global,
    text: Option<Vec<u8>>,
    failing: Vec<u64>,
    calls: u64,
    faults: u64,
}

/// One more, up to the greatest `u64`.
fn one_more(count: u64) -> u64
    ensures { result ≡ one_more count }
{
    count.saturating_add(1)
}

impl MemBoard {
    ghost use Rattle.xl_board.specs.Memory.{text_on};

    /// A board on which nothing stands.
    pub fn new(alloc: Global, failing: Vec<u64>) -> Self
        ensures text { text_on result ≡ None }
        ensures faults { ⟦<MemBoard as Board>⟧.faults result ≡ 0 }
    {
        MemBoard {
            alloc,
            text: None,
            failing,
            calls: 0,
            faults: 0,
        }
    }

    /// The text that stands there.
    pub fn text(&self) -> Option<&[u8]>
        ensures { option_map (λ bytes. bytes.now) result ≡ text_on self.now }
    {
        match &self.text {
            Some(text) => Some(text.as_slice()),
            None => None,
        }
    }

    /// How often it was called, up to the greatest `u64`.
    pub fn calls(&self) -> u64
        ensures { result ≡ self.now.calls }
    {
        self.calls
    }

    /// Counts a call, and says whether it fails.
    fn fails(&mut self) -> bool
        ensures text { self.new.text ≡ self.old.text }
        ensures faults { self.new.faults ≡ self.old.faults }
        ensures calls { self.new.calls ≡ one_more self.old.calls }
    {
        self.calls = one_more(self.calls);
        self.failing.contains(&self.calls)
    }

    /// Counts a fault.
    fn fail(&mut self) -> Failed
        ensures text { self.new.text ≡ self.old.text }
        ensures later { self.old.faults ≤ self.new.faults }
        ensures rose { Rose self.old.faults self.new.faults }
    {
        self.faults = self.faults.saturating_add(1);
        Failed
    }
}

impl Board for MemBoard {
    ghost use Rattle.xl_board.specs.Memory.{text_on};

    ghost stands = { λ board. Some (text_on board) };

    ghost faults = { λ board. board.faults };

    fn show(&mut self, text: &[u8]) -> Result<(), Failed> {
        if self.fails() {
            return Err(self.fail());
        }
        match text.to_vec(self.alloc) {
            Ok(copy) => {
                self.text = Some(copy);
                Ok(())
            }
            Err(_) => Err(self.fail()),
        }
    }

    fn faults(&self) -> u64 {
        self.faults
    }
}

/// Boards and journals in memory. Nothing stands on each when it is opened. Whether it opens any is said at first.
#[derive(Drop)]
pub struct MemBoards {
    alloc: Global,
    opens: bool,
    faults: u64,
}

impl MemBoards {
    /// It opens each path, or each call fails.
    pub fn new(alloc: Global, opens: bool) -> Self
        ensures faults { ⟦<MemBoards as Boards>⟧.faults result ≡ 0 }
    {
        MemBoards {
            alloc,
            opens,
            faults: 0,
        }
    }

    /// Counts a fault.
    fn fail(&mut self) -> NotOpened
        ensures why { result ≡ NotOpened.Failed }
        ensures later { self.old.faults ≤ self.new.faults }
        ensures rose { Rose self.old.faults self.new.faults }
    {
        self.faults = one_more(self.faults);
        NotOpened::Failed
    }
}

impl Boards for MemBoards {
    type D = MemBoard;

    type J = MemSink;

    ghost stands = { λ boards path. Some None };

    ghost faults = { λ boards. boards.faults };

    fn open(&mut self, _path: &str) -> Result<MemBoard, NotOpened> {
        if self.opens {
            return Ok(MemBoard::new(self.alloc, Vec::new(self.alloc)));
        }
        Err(self.fail())
    }

    fn open_journal(&mut self, _path: &str, _now: Millis) -> Result<MemSink, NotOpened> {
        if self.opens {
            return Ok(MemSink::new(self.alloc, usize::MAX, Vec::new(self.alloc)));
        }
        Err(self.fail())
    }

    fn faults(&self) -> u64 {
        self.faults
    }
}
