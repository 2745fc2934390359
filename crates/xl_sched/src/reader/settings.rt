// Lines at which nothing happens: the limit, nodes, liars and the moment.
ghost use Rattle.std.specs.Prelude.{◌≡◌, ℕ, IfOk, option_copied};

use crate::choices::validating;
use crate::fault::{Cause, LineFault};
use crate::limits::MOST_LEDGERS;
use crate::line::Line;
use crate::members::{member, members, trusted};
use crate::numbers::{number, number_within};
use crate::reader::Reader;
use crate::tokens::Tokens;
use xl_base::{GREATEST_MILLIS, NodeNo};
use xl_ledger::LEAST_LIMIT;

impl Reader {
    ghost use Rattle.xl_sched.specs.Refusals.{GivenMemory};
    ghost use Rattle.xl_sched.specs.Members.{new_member_of};
    ghost use Rattle.xl_sched.specs.Reading.{IsUndeclared};
    ghost use Rattle.xl_sched.specs.Settings.{limit_line, speak_line, node_line, node_of, mode_of, liar_line, at_line};
    ghost use Rattle.xl_sched.specs.Fits.{IsFit};

    /// `limit n`. A second one is refused.
    pub(super) fn limit<'a>(&self, arguments: Tokens<'a>) -> Result<Line, LineFault<'a>>
        ensures value { result ≡ limit_line self.now arguments.entry }
        ensures fit { IfOk result (λ line. (sent : ℕ) → IsFit self.now sent line) }
    {
        let token = arguments.one()?;
        let limit = number_within(token, u64::from(LEAST_LIMIT), u64::from(MOST_LEDGERS))?;
        if self.limited {
            return Err(LineFault::with_text(Cause::Twice, token));
        }
        Ok(Line::Limit(limit as u32))
    }

    /// `speak v`. A second one is refused.
    pub(super) fn speak<'a>(&self, arguments: Tokens<'a>) -> Result<Line, LineFault<'a>>
        ensures value { result ≡ speak_line self.now arguments.entry }
        ensures fit { IfOk result (λ line. (sent : ℕ) → IsFit self.now sent line) }
    {
        let token = arguments.one()?;
        let version = number_within(token, 1, 2)?;
        if self.spoken {
            return Err(LineFault::with_text(Cause::Twice, token));
        }
        Ok(Line::Speak(version as u8))
    }

    /// `node i q list`, and `node i q list observing`.
    pub(super) fn node<'a>(&self, arguments: Tokens<'a>) -> Result<Line, LineFault<'a>>
        ensures value { GivenMemory result (node_line self.now arguments.entry) }
        ensures fit { IfOk result (λ line. (sent : ℕ) → IsFit self.now sent line) }
    {
        if let Some((me, quorum, list)) = arguments.only_three() {
            return self.node_of(me, quorum, list, None);
        }
        let (me, quorum, list, mode) = arguments.four()?;
        self.node_of(me, quorum, list, Some(mode))
    }

    fn node_of<'a>(
        &self,
        me: &'a [u8],
        quorum: &'a [u8],
        list: &'a [u8],
        mode: Option<&'a [u8]>,
    ) -> Result<Line, LineFault<'a>>
        ensures value { GivenMemory result
            (node_of self.now me.now quorum.now list.now (mode_of (option_copied mode.entry))) }
        ensures fit { IfOk result (λ line. (sent : ℕ) → IsFit self.now sent line) }
    {
        let me = self.undeclared(me)?;
        let quorum = number(quorum)?;
        let members = members(self.alloc, list)?;
        let validating = match mode {
            None => true,
            Some(mode) => validating(mode)?,
        };
        let list = trusted(&members, quorum)?;
        Ok(Line::Node {
            me,
            list,
            validating,
        })
    }

    /// `liar i`.
    pub(super) fn liar<'a>(&self, arguments: Tokens<'a>) -> Result<Line, LineFault<'a>>
        ensures value { result ≡ liar_line self.now arguments.entry }
        ensures fit { IfOk result (λ line. (sent : ℕ) → IsFit self.now sent line) }
    {
        let number = arguments.one()?;
        Ok(Line::Liar(self.undeclared(number)?))
    }

    /// A number that may still be declared.
    fn undeclared<'a>(&self, token: &'a [u8]) -> Result<NodeNo, LineFault<'a>>
        ensures value { result ≡ new_member_of self.now.nodes self.now.liars token.now }
        ensures new { IfOk result (IsUndeclared self.now) }
    {
        let node = member(token)?;
        if self.nodes.has(node) || self.liars.has(node) {
            Err(LineFault::with_text(Cause::Twice, token))
        } else {
            Ok(node)
        }
    }

    /// `at ms`.
    pub(super) fn at<'a>(&self, arguments: Tokens<'a>) -> Result<Line, LineFault<'a>>
        ensures value { result ≡ at_line arguments.entry }
        ensures fit { IfOk result (λ line. (sent : ℕ) → IsFit self.now sent line) }
    {
        let token = arguments.one()?;
        Ok(Line::At(number_within(token, 0, GREATEST_MILLIS)?))
    }
}
