// Votes on amendments and the fee.
ghost use Rattle.std.specs.Prelude.{◌≡◌, ◌⊎◌, ◌<◌, ◌||◌, Err, Ok, IfOk, IfSome, OnErr, MatchResult};
ghost use Rattle.xl_lists.specs.Lists.{is_on};
ghost use Rattle.xl_sched.specs.Limits.{most_lines};

use crate::fault::{Cause, LineFault};
use crate::favor::Favor;
use crate::limits::{MOST_BYTES, MOST_LINES};
use crate::members::member;
use crate::numbers::number;
use crate::reader::Reader;
use crate::refusal::SchedRefusal;
use crate::tokens::Tokens;
use crate::tx_sets::tx_set;
use xl_base::{NodeNo, TxIds};

/// The most amendments that a line names.
const MOST_FAVORED: usize = 32;

impl Reader {
    ghost use Rattle.xl_sched.specs.Favors.{after_favor, favor_by, favor_line, favor_of, favored_of, voter_of};
    ghost use Rattle.xl_sched.specs.Refusals.{GivenMemory};

    /// Reads the next line where its first token is `favor`, for which `read_line` has no word. None comes exactly for
    /// another line, for line 1, and for a line that is too long or one too many: that line isn't read then.
    ///
    /// Refused for its count of tokens, and then with the first of these, from left to right, that is no number, isn't
    /// declared, or is no ids. Or memory ran out.
    pub fn read_favor(&mut self, line: &[u8]) -> Result<Option<Favor>, SchedRefusal>
        ensures read { MatchResult result
            (λ read. favor_line self.old line.now ≡ Ok read)
            (λ refusal. (refusal ≡ SchedRefusal.OutOfMemory) ⊎ (favor_line self.old line.now ≡ Err refusal)) }
        ensures known { IfOk result (λ read. self.new ≡ after_favor self.old read) }
        ensures kept { OnErr result (self.new ≡ self.old) }
    {
        let alloc = self.alloc;
        match self.favor_line(line) {
            Ok(None) => Ok(None),
            Ok(Some(favor)) => {
                self.lines += 1;
                Ok(Some(favor))
            }
            Err(fault) => Err(fault.refusal(alloc)),
        }
    }

    fn favor_line<'a>(&self, line: &'a [u8]) -> Result<Option<Favor>, LineFault<'a>>
        ensures value { GivenMemory result (favor_line self.now line.now) }
        ensures more { IfOk result (λ read. IfSome read (λ _. self.now.lines < most_lines)) }
    {
        if self.lines == 0 || self.lines == MOST_LINES || line.len() > MOST_BYTES {
            return Ok(None);
        }
        self.favor_by(Tokens::of(line))
    }

    fn favor_by<'a>(&self, mut tokens: Tokens<'a>) -> Result<Option<Favor>, LineFault<'a>>
        ensures { GivenMemory result (favor_by self.now tokens.entry) }
    {
        match tokens.next() {
            Some(token) if token == b"favor".as_slice() => Ok(Some(self.favor(tokens)?)),
            _ => Ok(None),
        }
    }

    /// `m fee ids`, or `-`.
    fn favor<'a>(&self, arguments: Tokens<'a>) -> Result<Favor, LineFault<'a>>
        ensures { GivenMemory result (favor_of self.now arguments.entry) }
    {
        let (member, fee, ids) = arguments.three()?;
        let member = self.voter(member)?;
        let fee = number(fee)?;
        let ids = self.favored(ids)?;
        Ok(Favor { member, fee, ids })
    }

    /// A member that is declared, as a node or as a liar.
    fn voter<'a>(&self, token: &'a [u8]) -> Result<NodeNo, LineFault<'a>>
        ensures { result ≡ voter_of self.now token.now }
    {
        let member = member(token)?;
        if self.nodes.has(member) || self.liars.has(member) {
            Ok(member)
        } else {
            Err(LineFault::with_text(Cause::Absent, token))
        }
    }

    /// Ids that are joined by commas and rise strictly, at most 32, or `-` for none.
    fn favored<'a>(&self, token: &'a [u8]) -> Result<TxIds, LineFault<'a>>
        ensures { GivenMemory result (favored_of self.now.names token.now) }
    {
        let ids = tx_set(self.alloc, &self.names, token)?;
        if ids.as_slice().len() <= MOST_FAVORED {
            Ok(ids)
        } else {
            Err(LineFault::with_text(Cause::Id, token))
        }
    }
}
