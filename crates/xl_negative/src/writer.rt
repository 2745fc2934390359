// The machine of `xl negative`.
ghost use Rattle.std.specs.Prelude.{◌≡◌, ◌≤◌, ◌+◌, ◌++◌, [], drop, IfOk, IfSome, OnOk};
ghost use Rattle.xl_base.specs.Moments.{greatest_millis};
ghost use Rattle.xl_lines.specs.Rules.{step_given};
ghost use Rattle.xl_running.specs.Running.{IsInRange};
ghost use Rattle.xl_spelling.specs.Spellings.{list_line};
ghost use Rattle.xl_running.specs.Texts.{bad_line};
ghost use Rattle.xl_world.specs.Schedule.{IsPlausible};
ghost use Rattle.xl_negative.specs.Writing.{copied, as_line};

use crate::deciding::{Change, change_at};
use crate::hearing::{Heard, hear_issued, heard_in};
use crate::seats::Seats;
use std::alloc::Global;
use xl_base::{LedgerId, NodeNo, OutOfMemory, Seq};
use xl_lines::{Machine, Next, Overrun, Verdict, without_return};
use xl_lists::{List, SaidLedger};
use xl_running::{Running, beyond, push_bad};
use xl_sched::{Event, Line, SchedRefusal, What};
use xl_spelling::print_line;
use xl_world::{Happened, Outcome};

/// A schedule that runs, and is written again.
#[derive(Drop)]
pub struct Writer {
    alloc: Global,
    /// The schedule that is written: its reader reads the lines that are added too.
    running: Running,
    /// How many lines of the input were read; the count ends at the greatest `u64`.
    lines: u64,
    seats: Seats,
}

impl Writer {
    ghost use Rattle.xl_negative.specs.Ringing.{ring_keeping};
    ghost use Rattle.xl_negative.specs.States.{issued_in, state_of};
    ghost use Rattle.xl_negative.specs.Writing.{
      adds,
      after_line,
      after_outcome,
      after_outcomes,
      after_report,
      at_first,
      change_at,
      after_declaration,
      after_event,
      ledgers_at,
      takes,
      with_running,
    };
    ghost use Rattle.xl_negative.specs.Hearing.{heard_in as heard_in_frames};
    ghost use Rattle.xl_negative.specs.Seats.{members_of, seat_at};
    ghost use Rattle.xl_nunl.specs.Lists.{IsNegative};
    ghost use Rattle.xl_running.specs.Running.{in_world, world_of};
    ghost use Rattle.xl_world.specs.Schedule.{outcomes};

    /// Before the first line.
    pub fn open(alloc: Global) -> Result<Writer, OutOfMemory>
        ensures { IfOk result (λ writer. state_of writer ≡ at_first ring_keeping) }
    {
        Ok(Writer {
            alloc,
            running: Running::open(alloc)?,
            lines: 0,
            seats: Seats::open(alloc)?,
        })
    }

    /// A line that was read is taken in, and run if it is an event.
    fn take(&mut self, line: &Line) -> Result<(), OutOfMemory>
        requires { IsInRange line.now }
        ensures { OnOk result (state_of self.new
            ≡ with_running (state_of self.old) (takes self.old.running line.now)) }
    {
        match line {
            Line::Event(event) => {
                let _ = self.running.event(event)?;
                Ok(())
            }
            declaration => self.running.declare(declaration),
        }
    }

    /// A line is added behind the text so far, and read and run like any other.
    fn add(&mut self, line: &Line, text: &mut Vec<u8>) -> Result<Next, OutOfMemory>
        ensures { IfOk result (λ next. step_given next text.new.items (state_of self.new)
            ≡ adds (state_of self.old) text.old.items line.now) }
    {
        let mut spelled = Vec::new(self.alloc);
        print_line(line, &mut spelled)?;
        match self.running.read(&spelled) {
            Ok(read) => {
                push_line(text, &spelled)?;
                if let Some(line) = read {
                    self.take(&line)?;
                }
                Ok(Next::Line)
            }
            Err(SchedRefusal::OutOfMemory) => Err(OutOfMemory),
            Err(refusal) => {
                push_refusal(self.alloc, text, self.lines, &refusal)?;
                Ok(Next::Refused)
            }
        }
    }

    /// The node of this number goes over to this list, and the line of it is added.
    fn go_over(&mut self, i: NodeNo, list: List, text: &mut Vec<u8>) -> Result<Next, OutOfMemory>
        ensures { IfOk result (λ next. step_given next text.new.items (state_of self.new)
            ≡ adds (state_of self.old) text.old.items (list_line self.old.running.reading i list)) }
    {
        let at = self.running.reader().moment();
        let what = What::List { node: i, list };
        self.add(&Line::Event(Event { at, what }), text)
    }

    /// What the node of this number changes at a report of its own.
    fn change_at(&self, i: NodeNo, seq: Seq, id: &LedgerId) -> Result<Option<Change>, OutOfMemory>
        ensures value { IfOk result (λ change. change
            ≡ change_at ring_keeping (seat_at ring_keeping self.now.seats i) i (ledgers_at self.now.running.world i) seq id.now) }
        ensures lawful { IfOk result (λ change. IfSome change (λ c.
            IsNegative (members_of (seat_at ring_keeping self.now.seats i).full) c.negative)) }
    {
        let seat = self.seats.at(i);
        let Some(world) = self.running.world() else {
            return Ok(None);
        };
        match world.node(i) {
            Some(core) => change_at(self.alloc, seat, i, core.node().registry(), seq, id),
            None => Ok(None),
        }
    }

    /// A node reported a ledger, and goes over to another list if that is a flag ledger that it knows and its
    /// decision changes something.
    fn report(
        &mut self,
        i: NodeNo,
        seq: Seq,
        id: &LedgerId,
        text: &mut Vec<u8>,
    ) -> Result<Next, OutOfMemory>
        ensures { IfOk result (λ next. step_given next text.new.items (state_of self.new)
            ≡ after_report ring_keeping (state_of self.old) text.old.items i seq id.now) }
    {
        match self.change_at(i, seq, id)? {
            Some(change) => {
                self.seats.leave_out(i, change.negative);
                self.go_over(i, change.list, text)
            }
            None => Ok(Next::Line),
        }
    }

    fn outcome(&mut self, outcome: &Outcome, text: &mut Vec<u8>) -> Result<Next, OutOfMemory>
        ensures { IfOk result (λ next. step_given next text.new.items (state_of self.new)
            ≡ after_outcome ring_keeping (state_of self.old) text.old.items outcome.now) }
    {
        match outcome {
            Outcome::Full { node, seq, id } => self.report(*node, *seq, id, text),
            _ => Ok(Next::Line),
        }
    }

    /// The decisions on what came of an event, in order.
    fn outcomes(&mut self, outcomes: &[Outcome], text: &mut Vec<u8>) -> Result<Next, OutOfMemory>
        ensures { IfOk result (λ next. step_given next text.new.items (state_of self.new)
            ≡ after_outcomes ring_keeping (state_of self.old) text.old.items outcomes.now) }
    {
        for outcome in outcomes {
            match self.outcome(outcome, text)? {
                Next::Line => {}
                end => return Ok(end),
            }
        }
        Ok(Next::Line)
    }

    /// An event of the input is run, and what nodes hear in it is kept. What came of it comes back.
    fn run(&mut self, event: &Event) -> Result<Happened, OutOfMemory>
        requires timely { event.now.at ≤ greatest_millis }
        requires plausible { IsPlausible event.now.what }
        ensures state { OnOk result (state_of self.new ≡ after_event ring_keeping (state_of self.old) event.now) }
        ensures told { IfOk result (λ told. told ≡ outcomes (world_of self.old.running) event.now) }
    {
        let mut heard = self.heard_in(&event.what)?;
        let before = self.issued().len();
        let told = self.running.event(event)?;
        hear_issued(&mut heard, since(self.issued(), before))?;
        self.seats.hear(self.alloc, &heard)?;
        self.seats.happen(&event.what);
        Ok(told)
    }

    /// What nodes hear in the frames that are handed to them when something happens.
    fn heard_in(&mut self, what: &What) -> Result<Vec<Heard>, OutOfMemory>
        requires { IsPlausible what.now }
        ensures heard { IfOk result (λ heard. heard.items ≡ heard_in_frames (world_of self.old.running) what.now) }
        ensures state { OnOk result (state_of self.new ≡ with_running (state_of self.old)
            (in_world self.old.running (world_of self.old.running))) }
    {
        self.running.open_world()?;
        let Some(world) = self.running.world() else {
            unreachable!()
        };
        heard_in(self.alloc, world, what)
    }

    /// Every validation that was issued, once there is a world.
    fn issued(&self) -> &[SaidLedger]
        ensures { result.now ≡ issued_in self.now.running.world }
    {
        match self.running.world() {
            Some(world) => world.said(),
            None => &[],
        }
    }

    /// What a line of the input says is taken in.
    fn after_line(&mut self, line: &Line, text: &mut Vec<u8>) -> Result<Next, OutOfMemory>
        requires { IsInRange line.now }
        ensures { IfOk result (λ next. step_given next text.new.items (state_of self.new)
            ≡ after_line ring_keeping (state_of self.old) text.old.items line.now) }
    {
        match line {
            Line::Event(event) => {
                let told = self.run(event)?;
                self.outcomes(told.as_slice(), text)
            }
            declaration => {
                self.declare(declaration)?;
                Ok(Next::Line)
            }
        }
    }

    /// What a line of the input declares.
    fn declare(&mut self, line: &Line) -> Result<(), OutOfMemory>
        requires { IsInRange line.now }
        ensures { OnOk result (state_of self.new ≡ after_declaration ring_keeping (state_of self.old) line.now) }
    {
        if let Line::Node { me, list, .. } = line {
            self.seats.list(*me, list.copy());
        }
        self.running.declare(line)
    }
}

impl Machine for Writer {
    ghost use Rattle.xl_negative.specs.States.{state_of};
    ghost use Rattle.xl_negative.specs.Ringing.{Places, ring_keeping};
    ghost use Rattle.xl_negative.specs.Writing.{Writing, rules as the_rules};

    type Answer = Vec<u8>;

    ghost State = { Writing Places };

    ghost state = { state_of };

    ghost rules = { the_rules ring_keeping };

    fn line(&mut self, line: &[u8], ended: bool, text: &mut Vec<u8>) -> Result<Next, OutOfMemory> {
        match self.running.read(line) {
            Ok(read) => {
                self.lines = self.lines.saturating_add(1);
                push_line(text, copied(line, ended))?;
                match read {
                    Some(line) => self.after_line(&line, text),
                    None => Ok(Next::Line),
                }
            }
            Err(SchedRefusal::OutOfMemory) => Err(OutOfMemory),
            Err(refusal) => {
                push_refusal(self.alloc, text, self.lines.saturating_add(1), &refusal)?;
                Ok(Next::Refused)
            }
        }
    }

    fn overrun(&mut self, overrun: Overrun, text: &mut Vec<u8>) -> Result<(), OutOfMemory> {
        let refusal = beyond(self.alloc, overrun)?;
        push_refusal(self.alloc, text, self.lines.saturating_add(1), &refusal)
    }

    fn close(&mut self, text: &mut Vec<u8>) -> Result<Verdict, OutOfMemory> {
        if self.lines == 0 {
            push_refusal(
                self.alloc,
                text,
                1,
                &SchedRefusal::missing_header(self.alloc),
            )?;
            return Ok(Verdict::Refused);
        }
        Ok(Verdict::Good)
    }
}

/// What stands behind the first so many.
fn since(said: &[SaidLedger], before: usize) -> &[SaidLedger]
    ensures { result.now ≡ drop before said.now }
{
    if before < said.len() {
        &said[before..]
    } else {
        &[]
    }
}

/// A line of the input as it is written: one return before its end is left out, also at the end of the input.
fn copied(line: &[u8], ended: bool) -> &[u8]
    ensures { result.now ≡ copied line.now ended }
{
    if ended { line } else { without_return(line) }
}

/// A line of what is written.
fn push_line(text: &mut Vec<u8>, line: &[u8]) -> Result<(), OutOfMemory>
    ensures { OnOk result (text.new.items ≡ text.old.items ++ as_line line.now) }
{
    text.extend_from_slice(line)?;
    text.push(b'\n')?;
    Ok(())
}

/// The line that says why line n of the input is refused.
fn push_refusal(
    alloc: Global,
    text: &mut Vec<u8>,
    line: u64,
    refusal: &SchedRefusal,
) -> Result<(), OutOfMemory>
    ensures { OnOk result (text.new.items ≡ text.old.items ++ bad_line line refusal.now) }
{
    let mut bad = String::new(alloc);
    push_bad(&mut bad, line, refusal)?;
    text.extend_from_slice(bad.as_bytes())?;
    Ok(())
}
