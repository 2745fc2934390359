// A line by its word.
ghost use Rattle.std.specs.Prelude.{◌≡◌, ℕ, Some, IfOk, IfSome, OnOk};
ghost use Rattle.xl_sched.specs.Answers.{PutsEvent, some_line};

use crate::event::{Event, What};
use crate::fault::{Cause, LineFault};
use crate::line::Line;
use crate::reader::Reader;
use crate::tokens::Tokens;
use crate::word::{EventWord, SettingWord};

impl Reader {
    ghost use Rattle.xl_sched.specs.Refusals.{GivenMemory, PutsGivenMemory};
    ghost use Rattle.xl_sched.specs.Fits.{IsFit, IsFitWhat};
    ghost use Rattle.xl_sched.specs.Words.{setting_line, what_of, event_at, worded_line};

    /// The line of a first token, and of the tokens after it.
    pub(super) fn worded_line<'a>(
        &self,
        token: &'a [u8],
        arguments: Tokens<'a>,
        sent: u64,
        said: &mut Option<Line>,
    ) -> Result<(), LineFault<'a>>
        ensures value { PutsGivenMemory result said.new
            (some_line (worded_line self.now sent token.now arguments.entry)) }
        ensures fit { OnOk result (IfSome said.new (IsFit self.now sent)) }
    {
        if let Some(word) = SettingWord::of(token) {
            return self.put_setting(word, token, arguments, said);
        }
        match EventWord::of(token) {
            Some(word) => self.event(word, arguments, sent, said),
            None => Err(LineFault::with_text(Cause::Word, token)),
        }
    }

    /// A line at which nothing happens is put into its place.
    // It is large, and in the caller's each event would clear a place for it.
    #[inline(never)]
    fn put_setting<'a>(
        &self,
        word: SettingWord,
        token: &'a [u8],
        arguments: Tokens<'a>,
        said: &mut Option<Line>,
    ) -> Result<(), LineFault<'a>>
        ensures value { PutsGivenMemory result said.new
            (some_line (setting_line self.now word token.now arguments.entry)) }
        ensures fit { (sent : ℕ) → OnOk result (IfSome said.new (IsFit self.now sent)) }
    {
        *said = Some(self.setting(word, token, arguments)?);
        Ok(())
    }

    /// A line at which nothing happens. A declaration comes before the first event.
    fn setting<'a>(
        &self,
        word: SettingWord,
        token: &'a [u8],
        arguments: Tokens<'a>,
    ) -> Result<Line, LineFault<'a>>
        ensures value { GivenMemory result (setting_line self.now word token.now arguments.entry) }
        ensures fit { IfOk result (λ line. (sent : ℕ) → IsFit self.now sent line) }
    {
        if self.started && word.is_declaration() {
            return Err(LineFault::with_text(Cause::Late, token));
        }
        match word {
            SettingWord::Limit => self.limit(arguments),
            SettingWord::Speak => self.speak(arguments),
            SettingWord::Node => self.node(arguments),
            SettingWord::Liar => self.liar(arguments),
            SettingWord::At => self.at(arguments),
            SettingWord::Name => self.name(arguments),
            SettingWord::Ledger => self.ledger(arguments),
        }
    }

    /// The line of an event.
    fn event<'a>(
        &self,
        word: EventWord,
        arguments: Tokens<'a>,
        sent: u64,
        said: &mut Option<Line>,
    ) -> Result<(), LineFault<'a>>
        ensures value { PutsEvent self.now result said.new (what_of self.now sent word arguments.entry) }
        ensures fit { OnOk result (IfSome said.new (IsFit self.now sent)) }
    {
        match word {
            EventWord::Issue => self.issue(arguments, said),
            EventWord::Submit => self.submit(arguments, said),
            EventWord::Timer => self.timer(arguments, said),
            EventWord::Timers => self.timers(arguments, said),
            EventWord::Deliver => self.deliver(arguments, sent, said),
            EventWord::All => self.all(arguments, said),
            EventWord::Drop => self.drop(arguments, said),
            EventWord::Greet => self.greet(arguments, said),
            EventWord::Restart => self.restart(arguments, said),
            EventWord::Cut => self.cut(arguments, said),
            EventWord::Fail => self.fail(arguments, said),
            EventWord::Lie => self.lie(arguments, said),
            EventWord::Raw => self.raw(arguments, said),
            EventWord::Prefer => self.prefer(arguments, said),
            EventWord::List => self.list(arguments, said),
            EventWord::Heard => self.heard(arguments, said),
        }
    }

    /// It happens at the moment in force.
    // What happens is large: in the caller's it is written where it is to be, and else it would be moved twice.
    #[inline(always)]
    pub(super) fn happen(&self, what: What, said: &mut Option<Line>)
        ensures value { said.new ≡ Some (event_at self.now what) }
        ensures fit { (sent : ℕ) → IsFitWhat self.now sent what → IfSome said.new (IsFit self.now sent) }
    {
        *said = Some(Line::Event(Event {
            at: self.moment,
            what,
        }));
    }
}
