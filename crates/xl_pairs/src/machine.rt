// The machine of `xl lists`.
ghost use Rattle.std.specs.Prelude.{◌≡◌, ◌+◌, [], IfOk, OnOk, string_bytes};
ghost use Rattle.xl_sched.specs.BadLines.{bad_line};

use crate::declared::Node;
use crate::texts::push_pairs;
use crate::words::foreign_word;
use std::alloc::Global;
use xl_base::{Bytes, NodeNo, OutOfMemory};
use xl_lines::{Machine, Next, Overrun, Verdict};
use xl_sched::{Line, Reader, SchedRefusal, beyond, push_bad};

/// A schedule so far: what was read, and the nodes and liars that are declared.
#[derive(Drop)]
pub struct Comparer {
    alloc: Global,
    reader: Reader,
    nodes: Vec<Node>,
    liars: Vec<NodeNo>,
}

impl Comparer {
    ghost use Rattle.std.specs.Prelude.{◌≢◌};
    ghost use Rattle.xl_lines.specs.Rules.{goes_on, step_given};
    ghost use Rattle.xl_pairs.specs.Comparing.{at_first, after_line, after_answer, step_of};
    ghost use Rattle.xl_pairs.specs.States.{state_of};
    ghost use Rattle.xl_sched.specs.Answers.{reading_of};

    /// Before the first line.
    pub fn new(alloc: Global) -> Result<Comparer, OutOfMemory>
        ensures { IfOk result (λ comparer. state_of comparer ≡ at_first) }
    {
        Ok(Comparer {
            alloc,
            reader: Reader::open(alloc)?,
            nodes: Vec::new(alloc),
            liars: Vec::new(alloc),
        })
    }

    /// What a line says is taken in.
    fn take(&mut self, line: &Line) -> Result<(), OutOfMemory>
        ensures { OnOk result (state_of self.new ≡ after_line (state_of self.old) self.old.reader line.now) }
    {
        match line {
            Line::Node { me, list, .. } => {
                self.nodes.push(Node {
                    me: *me,
                    list: list.copy(),
                })?;
                Ok(())
            }
            Line::Liar(me) => {
                self.liars.push(*me)?;
                Ok(())
            }
            Line::Limit(_)
            | Line::Speak(_)
            | Line::At(_)
            | Line::Name { .. }
            | Line::Ledger { .. }
            | Line::Event(_) => Ok(()),
        }
    }

    /// The line that says why the next line is refused.
    fn refuse(&self, refusal: &SchedRefusal, text: &mut String) -> Result<(), OutOfMemory>
        requires { string_bytes text.old ≡ [] }
        ensures { OnOk result (string_bytes text.new ≡ bad_line (self.now.reader.lines + 1) refusal.now) }
    {
        push_bad(text, self.reader.lines() + 1, refusal)
    }

    /// The reader's answer to a line.
    fn read(&mut self, line: &[u8], text: &mut String) -> Result<Next, OutOfMemory>
        requires { string_bytes text.old ≡ [] }
        ensures { IfOk result (λ next. step_given next (string_bytes text.new) (state_of self.new)
            ≡ after_answer (state_of self.old) (reading_of self.old.reader 0 line.now)) }
    {
        match self.reader.read_line(line, 0) {
            Ok(None) => Ok(Next::Line),
            Ok(Some(line)) => {
                self.take(&line)?;
                Ok(Next::Line)
            }
            Err(SchedRefusal::OutOfMemory) => Err(OutOfMemory),
            Err(refusal) => {
                self.refuse(&refusal, text)?;
                Ok(Next::Refused)
            }
        }
    }

    /// The refusal of a line that begins with a word that may not stand there.
    fn refuse_word(&self, word: &[u8], text: &mut String) -> Result<(), OutOfMemory>
        requires { string_bytes text.old ≡ [] }
        ensures { OnOk result (string_bytes text.new
            ≡ bad_line (self.now.reader.lines + 1) (SchedRefusal.Word word.now)) }
    {
        let refusal = SchedRefusal::Word(Bytes::from_vec(word.to_vec(self.alloc)?));
        self.refuse(&refusal, text)
    }
}

impl Machine for Comparer {
    ghost use Rattle.xl_pairs.specs.Comparing.{Comparing, rules as the_rules};
    ghost use Rattle.xl_pairs.specs.States.{state_of};

    type Answer = String;

    ghost State = { Comparing };

    ghost state = { state_of };

    ghost rules = { the_rules };

    fn line(&mut self, line: &[u8], _ended: bool, text: &mut String) -> Result<Next, OutOfMemory> {
        if self.reader.lines() == 0 {
            return self.read(line, text);
        }
        match foreign_word(line) {
            None => self.read(line, text),
            Some(word) => {
                self.refuse_word(word, text)?;
                Ok(Next::Refused)
            }
        }
    }

    fn overrun(&mut self, overrun: Overrun, text: &mut String) -> Result<(), OutOfMemory> {
        let refusal = beyond(self.alloc, overrun)?;
        self.refuse(&refusal, text)
    }

    fn close(&mut self, text: &mut String) -> Result<Verdict, OutOfMemory> {
        if self.reader.lines() == 0 {
            push_bad(text, 1, &SchedRefusal::missing_header(self.alloc))?;
            return Ok(Verdict::Refused);
        }
        push_pairs(text, &self.liars, &self.nodes)?;
        Ok(Verdict::Good)
    }
}
