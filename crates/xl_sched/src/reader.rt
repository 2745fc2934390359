mod events;
mod favors;
mod lies;
mod naming;
mod saves;
mod settings;
mod words;

ghost use Rattle.std.specs.Prelude.{◌≡◌, ◌⊎◌, ℕ, ◌≤◌, ◌<◌, None, Ok, Err, OnOk, OnErr, IfOk, IfErr, IfSome, MatchResult, option_copied};
ghost use Rattle.xl_sched.specs.Answers.{header_line, is_comment};
ghost use Rattle.xl_sched.specs.Reading.{lists_in};
ghost use Rattle.xl_sched.specs.Limits.{most_lines};

use crate::event::What;
use crate::fault::{Cause, LineFault};
use crate::limits::{MOST_BYTES, MOST_LINES};
use crate::line::Line;
use crate::names::Names;
use crate::nodes::Nodes;
use crate::refusal::SchedRefusal;
use crate::tokens::Tokens;
use std::alloc::Global;
use std::marker::Model;
use xl_base::{Millis, OutOfMemory};

/// The moment in force before a line says another.
const FIRST_MOMENT: Millis = 1_000;

/// Reads a schedule line by line. Contracts see what it knows of the lines that it has read.
#[derive(Drop)]
pub struct Reader {
    lines: u32,
    moment: Millis,
    started: bool,
    limited: bool,
    spoken: bool,
    lists: u32,
    nodes: Nodes,
    liars: Nodes,
    names: Names,
    alloc: Global,
}

impl Model for Reader {
    ghost use Rattle.std.specs.Prelude.{◌≤◌};
    ghost use Rattle.xl_base.specs.Moments.{greatest_millis};
    ghost use Rattle.xl_sched.specs.Limits.{most_lines, most_lists};
    ghost use Rattle.xl_sched.specs.Reading.{Reading};

    ghost Value = { Reading };

    ghost view = { λ r. record {
      lines = r.lines;
      now = r.moment;
      started = r.started;
      limited = r.limited;
      spoken = r.spoken;
      lists = r.lists;
      nodes = r.nodes;
      liars = r.liars;
      names = r.names;
    } };

    ghost invariant = { λ r. (r.lines ≤ most_lines) × (r.moment ≤ greatest_millis) × (r.lists ≤ most_lists) };
}

impl Reader {
    ghost use Rattle.xl_base.specs.Moments.{greatest_millis};
    ghost use Rattle.xl_sched.specs.Fits.{IsFit};
    ghost use Rattle.xl_sched.specs.Names.{name_of};
    ghost use Rattle.xl_sched.specs.Refusals.{PutsGivenMemory};
    ghost use Rattle.xl_sched.specs.Reading.{opened, after};
    ghost use Rattle.xl_sched.specs.Answers.{reading_of, refuses, answered, line_of_tokens, later_line};

    /// A reader before the first line: no node and no liar is declared, and `root` stands for 32 zero bytes.
    pub fn open(alloc: Global) -> Result<Reader, OutOfMemory>
        ensures { IfOk result (λ reader. reader ≡ opened) }
    {
        Ok(Reader {
            lines: 0,
            moment: FIRST_MOMENT,
            started: false,
            limited: false,
            spoken: false,
            lists: 0,
            nodes: Nodes::new(alloc),
            liars: Nodes::new(alloc),
            names: Names::with_root(alloc)?,
            alloc,
        })
    }

    /// The moment in force, in milliseconds.
    pub fn moment(&self) -> Millis
        ensures value { result ≡ self.now.now }
        ensures most { result ≤ greatest_millis }
    {
        self.moment
    }

    /// Reads the next line, without the byte that ends it, if this many frames were sent so far. None comes exactly
    /// for the header, an empty line and a comment.
    ///
    /// Refused with the first of the causes that holds: the line is too long; there are too many lines, or names; line
    /// 1 is no header; the first token is no word; a declaration comes after an event; no line of the word has so many
    /// tokens; a token, from left to right, is no number, no id, no choice, was declared before or isn't declared; the
    /// numbers are no list. Or memory ran out.
    pub fn read_line(&mut self, line: &[u8], sent: u64) -> Result<Option<Line>, SchedRefusal>
        ensures read { IfOk result (λ read. reading_of self.old sent line.now ≡ answered read self.new) }
        ensures refused { IfErr result (λ refusal.
            (refusal ≡ SchedRefusal.OutOfMemory) ⊎ (reading_of self.old sent line.now ≡ refuses refusal)) }
        ensures fit { IfOk result (λ read. IfSome read (IsFit self.old sent)) }
        ensures kept { OnErr result (self.new ≡ self.old) }
    {
        let mut said = None;
        self.read_into(line, sent, &mut said)?;
        Ok(said)
    }

    /// The same, and what the line says is put into its last place: a `Line` is large, and each answer copies it.
    pub fn read_into(
        &mut self,
        line: &[u8],
        sent: u64,
        said: &mut Option<Line>,
    ) -> Result<(), SchedRefusal>
        requires { said.old ≡ None }
        ensures read { OnOk result (reading_of self.old sent line.now ≡ answered said.new self.new) }
        ensures refused { IfErr result (λ refusal.
            (refusal ≡ SchedRefusal.OutOfMemory) ⊎ (reading_of self.old sent line.now ≡ refuses refusal)) }
        ensures fit { OnOk result (IfSome said.new (IsFit self.old sent)) }
        ensures kept { OnErr result (self.new ≡ self.old) }
    {
        let alloc = self.alloc;
        match self.read(line, sent, said) {
            Ok(()) => return Ok(()),
            Err(fault) => return Err(fault.refusal(alloc)),
        }
    }

    fn read<'a>(
        &mut self,
        line: &'a [u8],
        sent: u64,
        said: &mut Option<Line>,
    ) -> Result<(), LineFault<'a>>
        requires { said.old ≡ None }
        ensures read { OnOk result (reading_of self.old sent line.now ≡ answered said.new self.new) }
        ensures refused { IfErr result (λ refusal.
            (refusal ≡ SchedRefusal.OutOfMemory) ⊎ (reading_of self.old sent line.now ≡ refuses refusal)) }
        ensures fit { OnOk result (IfSome said.new (IsFit self.old sent)) }
        ensures kept { OnErr result (self.new ≡ self.old) }
    {
        if line.len() > MOST_BYTES {
            return Err(LineFault::with_number(Cause::LongLine, MOST_BYTES as u64));
        }
        if self.lines == MOST_LINES {
            return Err(LineFault::with_number(Cause::Limit, u64::from(MOST_LINES)));
        }
        self.line(Tokens::of(line), sent, said)?;
        match &*said {
            Some(line) => self.learn(line)?,
            None => self.lines += 1,
        }
        Ok(())
    }

    /// What the line of these tokens says.
    fn line<'a>(
        &self,
        tokens: Tokens<'a>,
        sent: u64,
        said: &mut Option<Line>,
    ) -> Result<(), LineFault<'a>>
        requires { said.old ≡ None }
        ensures value { PutsGivenMemory result said.new (line_of_tokens self.now sent tokens.entry) }
        ensures fit { OnOk result (IfSome said.new (IsFit self.now sent)) }
    {
        if self.lines == 0 {
            header(tokens)
        } else {
            self.later_line(tokens, sent, said)
        }
    }

    fn later_line<'a>(
        &self,
        mut tokens: Tokens<'a>,
        sent: u64,
        said: &mut Option<Line>,
    ) -> Result<(), LineFault<'a>>
        requires { said.old ≡ None }
        ensures value { PutsGivenMemory result said.new (later_line self.now sent tokens.entry) }
        ensures fit { OnOk result (IfSome said.new (IsFit self.now sent)) }
    {
        match tokens.next() {
            None => Ok(()),
            Some(token) if is_comment(token) => Ok(()),
            Some(token) => self.worded_line(token, tokens, sent, said),
        }
    }

    /// Counts a line, and takes in what it says.
    fn learn(&mut self, line: &Line) -> Result<(), OutOfMemory>
        requires more { self.old.lines < most_lines }
        requires fit { (sent : ℕ) × IsFit self.old sent line.now }
        ensures learnt { OnOk result (self.new ≡ after self.old line.now) }
        ensures kept { OnErr result (self.new ≡ self.old) }
    {
        match line {
            Line::Node { me, .. } => self.nodes.declare(*me)?,
            Line::Liar(me) => self.liars.declare(*me)?,
            Line::Name { name, id } => self.names.declare(name.as_slice(), *id, self.alloc)?,
            Line::Limit(_) => self.limited = true,
            Line::Ledger { name, header, .. } => {
                self.names
                    .declare_ledger(name.as_slice(), header, self.alloc)?
            }
            Line::At(moment) => self.moment = *moment,
            Line::Speak(_) => self.spoken = true,
            Line::Event(event) => {
                self.started = true;
                self.lists += lists_in(&event.what);
            }
        }
        self.lines += 1;
        Ok(())
    }

    /// How many lines were read, the refused ones not counted; at most 1,000,000.
    pub fn lines(&self) -> u64
        ensures value { result ≡ self.now.lines }
        ensures most { result ≤ most_lines }
    {
        u64::from(self.lines)
    }

    /// The first declared name that stands for an id.
    pub fn name_of(&self, id: &[u8; 32]) -> Option<&[u8]>
        ensures { option_copied result ≡ name_of self.now.names id.now }
    {
        self.names.name_of(id)
    }
}

/// How many lists what happens sets.
fn lists_in(what: &What) -> u32
    ensures value { result ≡ lists_in what.now }
    ensures most { result ≤ 1 }
{
    match what {
        What::List { .. } => 1,
        _ => 0,
    }
}

/// Line 1 must be the header.
fn header<'a>(mut tokens: Tokens<'a>) -> Result<(), LineFault<'a>>
    ensures { MatchResult result
        (λ _. header_line tokens.entry ≡ Ok None)
        (λ fault. header_line tokens.entry ≡ Err fault) }
{
    let name = tokens.next().unwrap_or(b"".as_slice());
    let version = tokens.next().unwrap_or(b"".as_slice());
    if name == b"xl-schedule".as_slice() && version == b"1".as_slice() && tokens.next().is_none() {
        Ok(())
    } else {
        Err(LineFault::with_text(Cause::Header, name))
    }
}

fn is_comment(token: &[u8]) -> bool
    ensures { result ≡ is_comment token.now }
{
    matches!(token, [b'#', ..])
}
