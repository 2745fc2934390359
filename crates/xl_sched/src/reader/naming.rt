// Lines that give names: to ids and to ledgers.
ghost use Rattle.std.specs.Prelude.{◌≡◌, ◌≤◌, ℕ, length, IfOk};
ghost use Rattle.xl_sched.specs.Limits.{most_names};

use crate::fault::{Cause, LineFault};
use crate::limits::MOST_NAMES;
use crate::line::Line;
use crate::numbers::number;
use crate::reader::Reader;
use crate::tokens::Tokens;
use xl_base::Bytes;

impl Reader {
    ghost use Rattle.xl_sched.specs.Refusals.{GivenMemory};
    ghost use Rattle.xl_sched.specs.Naming.{named_line, name_line, named_ledger_line, ledger_line};
    ghost use Rattle.xl_sched.specs.Fits.{IsFit};

    /// `name w id`. Too many names are refused before all else.
    pub(super) fn name<'a>(&self, arguments: Tokens<'a>) -> Result<Line, LineFault<'a>>
        ensures value { GivenMemory result (name_line self.now arguments.entry) }
        ensures fit { IfOk result (λ line. (sent : ℕ) → IsFit self.now sent line) }
    {
        if self.names.len() > MOST_NAMES {
            return Err(LineFault::with_number(Cause::Limit, MOST_NAMES as u64));
        }
        let (name, id) = arguments.two()?;
        let name = self.names.undeclared(name)?;
        let id = self.names.id(id)?;
        let name = Vec::from_slice(self.alloc, name)?;
        Ok(Line::Name {
            name: Bytes::from_vec(name),
            id,
        })
    }

    /// `ledger w p close`. Too many names are refused before all else.
    pub(super) fn ledger<'a>(&self, arguments: Tokens<'a>) -> Result<Line, LineFault<'a>>
        ensures value { GivenMemory result (ledger_line self.now arguments.entry) }
        ensures fit { IfOk result (λ line. (sent : ℕ) → IsFit self.now sent line) }
    {
        if self.names.len() > MOST_NAMES {
            return Err(LineFault::with_number(Cause::Limit, MOST_NAMES as u64));
        }
        self.named_ledger(arguments)
    }

    fn named_ledger<'a>(&self, arguments: Tokens<'a>) -> Result<Line, LineFault<'a>>
        requires { length self.now.names ≤ most_names }
        ensures value { GivenMemory result (named_ledger_line self.now arguments.entry) }
        ensures fit { IfOk result (λ line. (sent : ℕ) → IsFit self.now sent line) }
    {
        let (name, parent, close) = arguments.three()?;
        let name = self.names.undeclared(name)?;
        let above = self.names.parent(parent)?;
        let header = above.header_after(number(close)?);
        let name = Vec::from_slice(self.alloc, name)?;
        let parent = Vec::from_slice(self.alloc, parent)?;
        Ok(Line::Ledger {
            name: Bytes::from_vec(name),
            parent: Bytes::from_vec(parent),
            header,
        })
    }
}
