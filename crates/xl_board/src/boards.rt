ghost use Rattle.std.specs.Prelude.{◌≡◌, ◌≤◌, ℕ, List, IfOk, IfErr, OnOk};
ghost use Rattle.std.specs.declared.option.Option.{Option};
ghost use Rattle.xl_base.specs.Faults.{Rose};
ghost use Rattle.xl_board.specs.Boards.{IsNew};

use crate::Board;
use xl_base::Millis;
use xl_io::Sink;

/// Why a board wasn't opened, or a file for a journal.
#[derive(Clone, Copy, Debug, PartialEq, Eq)]
pub enum NotOpened {
    /// Nothing can be shown at the path, or written there: the count of faults rose.
    Failed,
    OutOfMemory,
}

/// What opens boards by their paths, and files for journals.
pub trait Boards {
    type D: Board + Send + Drop;

    type J: Sink + Send + Drop;

    /// What stands on the board of a path when that is opened, if it is known.
    ghost stands: { Self → List ℕ → Option (Option (List ℕ)) };

    /// How often a call has failed, up to the greatest `u64`.
    ghost faults: { Self → ℕ };

    /// Opens the board of a path. It shows nothing yet: what stood there stays.
    fn open(&mut self, path: &str) -> Result<Self::D, NotOpened>
        ensures stands { IfOk result (λ board. Self.D.Board.stands board ≡ stands self.old path.now) }
        ensures later { faults self.old ≤ faults self.new }
        ensures failed { IfErr result (λ why. why ≡ NotOpened.Failed → Rose (faults self.old) (faults self.new)) }
        ensures exact { OnOk result (faults self.new ≡ faults self.old) };

    /// Opens a new file for a journal at a path. What has that name is kept under another one, which the moment makes.
    fn open_journal(&mut self, path: &str, now: Millis) -> Result<Self::J, NotOpened>
        ensures new { IfOk result (λ sink. IsNew (Self.J.Sink.held sink)) }
        ensures later { faults self.old ≤ faults self.new }
        ensures failed { IfErr result (λ why. why ≡ NotOpened.Failed → Rose (faults self.old) (faults self.new)) }
        ensures exact { OnOk result (faults self.new ≡ faults self.old) };

    /// How often a call has failed, up to the greatest `u64`.
    fn faults(&self) -> u64
        ensures { result ≡ faults self.now };
}
