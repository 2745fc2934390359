// Saves that are cut off, and saves that fail.
ghost use Rattle.std.specs.Prelude.{◌≡◌, ℕ, IfOk, IfSome, OnOk};
ghost use Rattle.xl_sched.specs.Answers.{PutsEvent};
ghost use Rattle.xl_sched.specs.Saves.{may_ask};

use crate::choices::new;
use crate::event::{Ask, What};
use crate::fault::{Cause, LineFault};
use crate::line::Line;
use crate::reader::Reader;
use crate::tokens::Tokens;

impl Reader {
    ghost use Rattle.xl_sched.specs.Fits.{IsFit, IsFitAsk};
    ghost use Rattle.xl_sched.specs.Saves.{ask_of, disturbed_of, cut_event, fail_event};

    /// `cut old E`, and `cut new E`.
    pub(super) fn cut<'a>(
        &self,
        arguments: Tokens<'a>,
        said: &mut Option<Line>,
    ) -> Result<(), LineFault<'a>>
        ensures value { PutsEvent self.now result said.new (cut_event self.now arguments.entry) }
        ensures fit { (sent : ℕ) → OnOk result (IfSome said.new (IsFit self.now sent)) }
    {
        let (new, ask) = self.disturbed(arguments)?;
        self.happen(What::Cut { new, ask }, said);
        Ok(())
    }

    /// `fail old E`, and `fail new E`.
    pub(super) fn fail<'a>(
        &self,
        arguments: Tokens<'a>,
        said: &mut Option<Line>,
    ) -> Result<(), LineFault<'a>>
        ensures value { PutsEvent self.now result said.new (fail_event self.now arguments.entry) }
        ensures fit { (sent : ℕ) → OnOk result (IfSome said.new (IsFit self.now sent)) }
    {
        let (new, ask) = self.disturbed(arguments)?;
        self.happen(What::Fail { new, ask }, said);
        Ok(())
    }

    /// `old E` and `new E`, E being what is asked.
    fn disturbed<'a>(&self, arguments: Tokens<'a>) -> Result<(bool, Ask), LineFault<'a>>
        ensures value { result ≡ disturbed_of self.now arguments.entry }
        ensures fit { IfOk result (λ save. IsFitAsk self.now save.1) }
    {
        let (held, word, asked) = arguments.two_and_others()?;
        if !may_ask(word, asked.count()) {
            return Err(arguments.miscounted());
        }
        Ok((new(held)?, self.ask(word, asked)?))
    }

    /// What is asked: the tokens of an `issue` or a `timer` line.
    fn ask<'a>(&self, word: &'a [u8], asked: Tokens<'a>) -> Result<Ask, LineFault<'a>>
        ensures value { result ≡ ask_of self.now word.now asked.entry }
        ensures fit { IfOk result (IsFitAsk self.now) }
    {
        if word == b"issue".as_slice() {
            self.asked_issue(asked)
        } else if word == b"timer".as_slice() {
            self.asked_timer(asked)
        } else {
            Err(LineFault::with_text(Cause::Choice, word))
        }
    }
}

/// Whether this many tokens may stand after the word of what is asked.
fn may_ask(word: &[u8], count: usize) -> bool
    ensures { result ≡ may_ask word.now count }
{
    if word == b"issue".as_slice() {
        count == 4
    } else if word == b"timer".as_slice() {
        count == 1
    } else {
        count == 1 || count == 4
    }
}
