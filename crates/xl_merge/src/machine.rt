// The machine of `xl merge`.
ghost use Rattle.std.specs.Prelude.{◌≡◌, ◌≤◌, ◌<◌, ◌+◌, [], IfOk, OnOk, string_bytes};
ghost use Rattle.xl_base.specs.Moments.{greatest_millis};
ghost use Rattle.xl_sched.specs.Limits.{most_lines};

use crate::line::Line;
use crate::reading::{header, later_line};
use crate::texts::{push_list, push_roll};
use std::alloc::Global;
use xl_base::{Millis, OutOfMemory, secs_of};
use xl_lines::{Machine, Next, Overrun, Verdict};
use xl_publish::Publishers;
use xl_sched::{Cause, LineFault, MOST_BYTES, MOST_LINES, SchedRefusal, Tokens, beyond, push_bad};

/// The moment in force before a line says another.
const FIRST_MOMENT: Millis = 1_000;

/// What is known of the lines that were read.
#[derive(Drop)]
pub struct Merger {
    alloc: Global,
    lines: u32,
    publishers: Publishers,
    threshold: u32,
    moment: Millis,
    ghost few: { lines ≤ most_lines },
    ghost early: { moment ≤ greatest_millis },
}

impl Merger {
    ghost use Rattle.xl_merge.specs.Lines.{IsFit, IsFitLine};
    ghost use Rattle.xl_merge.specs.Merging.{at_first, after_line, text_of, bounded_line, line_of_tokens};
    ghost use Rattle.xl_merge.specs.States.{state_of};
    ghost use Rattle.xl_sched.specs.Refusals.{GivenMemory};

    /// Before the first line.
    pub fn new(alloc: Global) -> Merger
        ensures { state_of result ≡ at_first }
    {
        Merger {
            alloc,
            lines: 0,
            publishers: Publishers::new(),
            threshold: 1,
            moment: FIRST_MOMENT,
        }
    }

    /// What a line says.
    fn read<'a>(&self, line: &'a [u8]) -> Result<Option<Line>, LineFault<'a>>
        ensures value { GivenMemory result (bounded_line (state_of self.now) line.now) }
        ensures fit { IfOk result IsFit }
        ensures more { OnOk result (self.now.lines < most_lines) }
    {
        if line.len() > MOST_BYTES {
            return Err(LineFault::with_number(Cause::LongLine, MOST_BYTES as u64));
        }
        if self.lines == MOST_LINES {
            return Err(LineFault::with_number(Cause::Limit, u64::from(MOST_LINES)));
        }
        self.line_of(Tokens::of(line))
    }

    fn line_of<'a>(&self, tokens: Tokens<'a>) -> Result<Option<Line>, LineFault<'a>>
        ensures value { GivenMemory result (line_of_tokens (state_of self.now) tokens.entry) }
        ensures fit { IfOk result IsFit }
    {
        if self.lines == 0 {
            header(tokens)
        } else {
            later_line(self.alloc, &self.publishers, tokens)
        }
    }

    /// Counts a line, takes in what it says, and puts what is written of it into the text.
    fn take(&mut self, line: &Line, text: &mut String) -> Result<(), OutOfMemory>
        requires more { self.old.lines < most_lines }
        requires fit { IsFitLine line.now }
        requires empty { string_bytes text.old ≡ [] }
        ensures state { OnOk result (state_of self.new ≡ after_line (state_of self.old) line.now) }
        ensures text { OnOk result (string_bytes text.new ≡ text_of (state_of self.old) line.now) }
    {
        self.lines += 1;
        match line {
            Line::Publisher { publisher, key } => {
                let _ = self.publishers.put(*publisher, *key);
                Ok(())
            }
            Line::Threshold(threshold) => {
                self.threshold = *threshold;
                Ok(())
            }
            Line::Roll(bytes) => {
                let answer = self.publishers.take(bytes.as_slice());
                push_roll(self.alloc, text, u64::from(self.lines), &answer)
            }
            Line::At(moment) => {
                self.moment = *moment;
                Ok(())
            }
            Line::List => {
                let list = self
                    .publishers
                    .list_at(secs_of(self.moment), self.threshold);
                push_list(text, &list)
            }
        }
    }
}

impl Machine for Merger {
    ghost use Rattle.xl_merge.specs.Merging.{Merging, rules as the_rules};
    ghost use Rattle.xl_merge.specs.States.{state_of};

    type Answer = String;

    ghost State = { Merging };

    ghost state = { state_of };

    ghost rules = { the_rules };

    fn line(&mut self, line: &[u8], _ended: bool, text: &mut String) -> Result<Next, OutOfMemory> {
        match self.read(line) {
            Ok(None) => {
                self.lines += 1;
                Ok(Next::Line)
            }
            Ok(Some(line)) => {
                self.take(&line, text)?;
                Ok(Next::Line)
            }
            Err(fault) => match fault.refusal(self.alloc) {
                SchedRefusal::OutOfMemory => Err(OutOfMemory),
                refusal => {
                    push_bad(text, u64::from(self.lines) + 1, &refusal)?;
                    Ok(Next::Refused)
                }
            },
        }
    }

    fn overrun(&mut self, overrun: Overrun, text: &mut String) -> Result<(), OutOfMemory> {
        let refusal = beyond(self.alloc, overrun)?;
        push_bad(text, u64::from(self.lines) + 1, &refusal)
    }

    fn close(&mut self, text: &mut String) -> Result<Verdict, OutOfMemory> {
        if self.lines == 0 {
            push_bad(text, 1, &SchedRefusal::missing_header(self.alloc))?;
            return Ok(Verdict::Refused);
        }
        Ok(Verdict::Good)
    }
}
