// The machine of `xl blame`.
ghost use Rattle.std.specs.Prelude.{◌≡◌, ◌+◌, ◌++◌, ◌<◌, ◌≤◌, ◌^◌, [], ◌∷◌, IfOk, OnOk, length, string_bytes};
ghost use Rattle.xl_audit.specs.Auditing.{bad_line};
ghost use Rattle.xl_audit.specs.Limits.{most_bytes, most_lines};
ghost use Rattle.xl_shown.specs.Courses.{entries_in, IsReadyCourse, IsReadyCourse-prop};
ghost use Rattle.xl_blame.specs.Blaming.{most_journals, too_many as too_many_journals};

use crate::gathering::Gathered;
use crate::limits::MOST_JOURNALS;
use crate::summary::push_summary;
use crate::texts::push_journal;
use std::alloc::Global;
use std::mem;
use xl_audit::{BadLine, MOST_BYTES, MOST_LINES, Stage, beyond, push_bad};
use xl_base::{Bytes, OutOfMemory};
use xl_lines::{Machine, Next, Overrun, Verdict};
use xl_sched::SchedRefusal;
use xl_shown::{Came, Course, End, Shown, come, end_of, list_in, may_end};

/// The journals so far: how the one that is read goes, those that have ended, and what all of them show.
#[derive(Drop)]
pub struct Blamer {
    alloc: Global,
    course: Course,
    ended: Vec<End>,
    shown: Gathered,
    lines: u32,
    ghost ready: { IsReadyCourse course } by { IsReadyCourse-prop course },
    ghost counted: { entries_in course ≤ lines },
    ghost within: { lines ≤ most_lines },
    ghost few: { length ended.items < most_journals },
}

impl Blamer {
    ghost use Rattle.xl_lines.specs.Rules.{closes, step_given};
    ghost use Rattle.xl_blame.specs.Blaming.{at_first, begins_next, ended_step, told_at_end, journal_step, number_of, overrun_of, read_step, with_shown};
    ghost use Rattle.xl_blame.specs.States.{state_of};
    ghost use Rattle.xl_shown.specs.Courses.{course_step, end_of as end_of_course};

    /// Before the first line.
    pub fn new(alloc: Global) -> Blamer
        ensures { state_of result ≡ at_first }
    {
        Blamer {
            alloc,
            course: Course::Goes(Stage::Heading),
            ended: Vec::new(alloc),
            shown: Gathered::new(alloc),
            lines: 0,
        }
    }

    /// The number of the journal that is read.
    fn number(&self) -> u32
        ensures { result ≡ number_of (state_of self.now) }
    {
        self.ended.len() as u32 + 1
    }

    /// Which limit a line is beyond.
    fn overrun_of(&self, line: &[u8]) -> Option<Overrun>
        ensures { result ≡ overrun_of self.now.lines line.now }
    {
        if line.len() > MOST_BYTES {
            return Some(Overrun::LongLine);
        }
        if self.lines == MOST_LINES {
            return Some(Overrun::ManyLines);
        }
        None
    }

    /// The line that says why the next line is refused.
    fn refuse(&self, why: &BadLine, text: &mut String) -> Result<(), OutOfMemory>
        ensures { OnOk result (string_bytes text.new ≡ string_bytes text.old ++ bad_line (self.now.lines + 1) why.now) }
    {
        push_bad(self.alloc, text, u64::from(self.lines) + 1, why)
    }

    /// A journal has ended, and the next one begins, if it isn't one too many.
    fn begin(&mut self, end: End, text: &mut String) -> Result<Next, OutOfMemory>
        requires more { self.old.lines < most_lines }
        requires empty { string_bytes text.old ≡ [] }
        ensures { IfOk result (λ next. step_given next (string_bytes text.new) (state_of self.new)
            ≡ ended_step (state_of self.old) (Ok end)) }
    {
        push_journal(text, self.number(), &end)?;
        if self.ended.len() + 1 == MOST_JOURNALS {
            self.refuse(&too_many(self.alloc)?, text)?;
            return Ok(Next::Refused);
        }
        self.ended.push(end)?;
        self.course = Course::Goes(Stage::Setting);
        self.lines += 1;
        Ok(Next::Line)
    }

    /// The header of the next journal.
    fn header(&mut self, text: &mut String) -> Result<Next, OutOfMemory>
        requires more { self.old.lines < most_lines }
        requires empty { string_bytes text.old ≡ [] }
        ensures { IfOk result (λ next. step_given next (string_bytes text.new) (state_of self.new)
            ≡ ended_step (state_of self.old) (end_of_course self.old.course)) }
    {
        match end_of(self.alloc, &self.course)? {
            Ok(end) => self.begin(end, text),
            Err(why) => {
                self.refuse(&why, text)?;
                Ok(Next::Refused)
            }
        }
    }

    /// What an entry shows is gathered.
    fn gather(&mut self, place: u64, shown: &Shown) -> Result<(), OutOfMemory>
        ensures { OnOk result (state_of self.new ≡ with_shown (state_of self.old) place shown.now) }
    {
        let journal = self.number();
        let list = list_in(&self.course);
        self.shown.push(journal, place, shown, list)
    }

    /// A line of the journal that is read.
    fn follow(&mut self, line: &[u8], text: &mut String) -> Result<Next, OutOfMemory>
        requires more { self.old.lines < most_lines }
        requires short { length line.now ≤ most_bytes }
        requires empty { string_bytes text.old ≡ [] }
        ensures { IfOk result (λ next. step_given next (string_bytes text.new) (state_of self.new)
            ≡ journal_step (state_of self.old) (course_step self.old.course line.now)) }
    {
        let number = u64::from(self.lines) + 1;
        let came = come(self.alloc, &mut self.course, line)?;
        self.lines += 1;
        match came {
            Came::Passed => Ok(Next::Line),
            Came::Showed { place, shown } => {
                self.gather(place, &shown)?;
                Ok(Next::Line)
            }
            Came::Refused(why) => {
                push_bad(self.alloc, text, number, &why)?;
                Ok(Next::Refused)
            }
        }
    }

    /// Whether a line is the header of the next journal.
    fn begins_next(&self, line: &[u8]) -> bool
        ensures { result ≡ begins_next (state_of self.now) line.now }
    {
        line == b"xl-journal 1".as_slice() && may_end(&self.course)
    }

    /// A line within the limits.
    fn read(&mut self, line: &[u8], text: &mut String) -> Result<Next, OutOfMemory>
        requires more { self.old.lines < most_lines }
        requires short { length line.now ≤ most_bytes }
        requires empty { string_bytes text.old ≡ [] }
        ensures { IfOk result (λ next. step_given next (string_bytes text.new) (state_of self.new)
            ≡ read_step (state_of self.old) line.now) }
    {
        if self.begins_next(line) {
            return self.header(text);
        }
        self.follow(line, text)
    }

    /// Behind the last line.
    fn conclude(&mut self, end: End, text: &mut String) -> Result<Verdict, OutOfMemory>
        requires empty { string_bytes text.old ≡ [] }
        ensures { IfOk result (λ verdict. closes (string_bytes text.new) verdict
            ≡ told_at_end (state_of self.old) (Ok end)) }
    {
        push_journal(text, self.number(), &end)?;
        let mut ended = mem::replace(&mut self.ended, Vec::new(self.alloc));
        ended.push(end)?;
        let shown = mem::replace(&mut self.shown, Gathered::new(self.alloc));
        push_summary(self.alloc, text, &ended, shown)
    }
}

impl Machine for Blamer {
    ghost use Rattle.xl_blame.specs.Blaming.{Blaming, rules as the_rules};
    ghost use Rattle.xl_blame.specs.States.{state_of};

    type Answer = String;

    ghost State = { Blaming };

    ghost state = { state_of };

    ghost rules = { the_rules };

    fn line(&mut self, line: &[u8], _ended: bool, text: &mut String) -> Result<Next, OutOfMemory> {
        match self.overrun_of(line) {
            None => self.read(line, text),
            Some(overrun) => {
                self.overrun(overrun, text)?;
                Ok(Next::Refused)
            }
        }
    }

    fn overrun(&mut self, overrun: Overrun, text: &mut String) -> Result<(), OutOfMemory> {
        let why = beyond(self.alloc, overrun)?;
        self.refuse(&why, text)
    }

    fn close(&mut self, text: &mut String) -> Result<Verdict, OutOfMemory> {
        match end_of(self.alloc, &self.course)? {
            Ok(end) => self.conclude(end, text),
            Err(why) => {
                self.refuse(&why, text)?;
                Ok(Verdict::Refused)
            }
        }
    }
}

/// Why one journal too many is refused.
fn too_many(alloc: Global) -> Result<BadLine, OutOfMemory>
    ensures { IfOk result (λ why. why ≡ too_many_journals) }
{
    let most = (MOST_JOURNALS as u64).to_string(alloc)?;
    let most = Bytes::from_vec(most.into_bytes());
    Ok(BadLine::Refused(SchedRefusal::Limit(most)))
}
