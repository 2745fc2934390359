// What the paths of settings lead to.
ghost use Rattle.std.specs.Prelude.{◌≡◌, ◌≤◌, None, IfErr, IfOk, IsSome, OnErr};
ghost use Rattle.xl_base.specs.Faults.{Rose};
ghost use Rattle.xl_validator.specs.Following.{IsFile};
ghost use Rattle.xl_validator.specs.Reaching.{IsClosed};
ghost use Rattle.xl_validator.specs.Tellings.{IsOpened};

use crate::telling::bulletin_of;
use std::alloc::Global;
use xl_base::Millis;
use xl_board::{Boards, NotOpened};
use xl_heartbeat::Bulletin;
use xl_settings::{KeyName, Settings};

/// The board on which a node tells how it is, and the file to which its journal goes as it comes.
#[derive(Drop)]
pub(crate) struct Reached<D, J> {
    pub bulletin: Option<Bulletin<D>>,
    pub file: Option<J>,
}

/// Why not all paths were opened.
#[derive(Clone, Copy, PartialEq, Eq)]
pub(crate) enum Unreached {
    /// The one of this key can't be, which refuses the settings.
    Refused(KeyName),
    OutOfMemory,
}

/// Opens the board and the file of the settings, if they name them.
pub(crate) fn reach_all<P: Boards>(
    alloc: Global,
    boards: &mut P,
    settings: &Settings,
    now: Millis,
) -> Result<Reached<P::D, P::J>, Unreached>
    ensures opened { IfOk result (λ reached.
        IsOpened P.D.Board.stands (P.stands boards.old) settings.now now reached.bulletin) }
    ensures file { IfOk result (λ reached. IsFile P.J.Sink.held settings.now.journal_file reached.file) }
    ensures unasked { settings.now.status ≡ None → settings.now.journal_file ≡ None → boards.new ≡ boards.old }
    ensures closed { IfErr result (IsClosed settings.now (Rose (P.faults boards.old) (P.faults boards.new))) }
{
    let bulletin = match bulletin_of(alloc, boards, settings, now) {
        Ok(bulletin) => bulletin,
        Err(NotOpened::Failed) => return Err(Unreached::Refused(KeyName::Status)),
        Err(NotOpened::OutOfMemory) => return Err(Unreached::OutOfMemory),
    };
    match file_of(boards, settings, now) {
        Ok(file) => Ok(Reached { bulletin, file }),
        Err(NotOpened::Failed) => Err(Unreached::Refused(KeyName::JournalFile)),
        Err(NotOpened::OutOfMemory) => Err(Unreached::OutOfMemory),
    }
}

/// Opens a new file for the journal, if the settings name one.
fn file_of<P: Boards>(
    boards: &mut P,
    settings: &Settings,
    now: Millis,
) -> Result<Option<P::J>, NotOpened>
    ensures opened { IfOk result (λ file. IsFile P.J.Sink.held settings.now.journal_file file) }
    ensures unasked { settings.now.journal_file ≡ None → boards.new ≡ boards.old }
    ensures asked { OnErr result (IsSome settings.now.journal_file) }
    ensures later { P.faults boards.old ≤ P.faults boards.new }
    ensures failed { IfErr result (λ why. why ≡ NotOpened.Failed → Rose (P.faults boards.old) (P.faults boards.new)) }
{
    let Some(path) = &settings.journal_file else {
        return Ok(None);
    };
    match boards.open_journal(path.as_str(), now) {
        Ok(file) => Ok(Some(file)),
        Err(why) => Err(why),
    }
}
