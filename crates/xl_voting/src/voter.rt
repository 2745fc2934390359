// The machine of `xl flags`.
ghost use Rattle.std.specs.Prelude.{◌≡◌, ◌≤◌, ◌+◌, [], decimal, IfOk, OnOk, string_bytes};
ghost use Rattle.xl_base.specs.Moments.{greatest_millis};
ghost use Rattle.xl_flags.specs.Votes.{most_amendments};
ghost use Rattle.xl_running.specs.Texts.{bad_line};
ghost use Rattle.xl_sched.specs.declared.refusal.SchedRefusal.TheVariants.{Limit};

use crate::reports::tell_outcomes;
use crate::tally::Tally;
use crate::texts::push_count;
use std::alloc::Global;
use xl_base::{Bytes, Millis, OutOfMemory};
use xl_flags::{FlagRefusal, MOST_AMENDMENTS};
use xl_lines::{Machine, Next, Overrun, Verdict};
use xl_running::{Running, beyond, push_bad};
use xl_sched::{Ask, Event, Favor, Line, SchedRefusal, What};

/// A schedule that runs, and its votes.
#[derive(Drop)]
pub struct Voter {
    alloc: Global,
    running: Running,
    tally: Tally,
}

impl Voter {
    ghost use Rattle.xl_lines.specs.Rules.{goes_on, step_given};
    ghost use Rattle.xl_running.specs.Running.{IsInRange, answer_in, happens, in_world, world_of};
    ghost use Rattle.xl_sched.specs.declared.event.What.TheVariants.{All, Timers};
    ghost use Rattle.xl_voting.specs.Reports.{behind, events_said, outcomes_said, said_so};
    ghost use Rattle.xl_voting.specs.States.{state_of};
    ghost use Rattle.xl_voting.specs.Tallying.{nothing_tallied, tally_keeping};
    ghost use Rattle.xl_voting.specs.Voting.{after_answer, after_happening, after_line, after_vote, nothing_read};
    ghost use Rattle.xl_world.specs.Parts.{after_events, parts_at};
    ghost use Rattle.xl_world.specs.Schedule.{IsPlausible, after_event, outcomes};

    /// Before the first line.
    pub fn new(alloc: Global) -> Result<Voter, OutOfMemory>
        ensures { IfOk result (λ voter. state_of voter ≡ nothing_read nothing_tallied) }
    {
        Ok(Voter {
            alloc,
            running: Running::open(alloc)?,
            tally: Tally::new(alloc),
        })
    }

    /// An event is a step of the world, and then it is looked at what was told of it.
    fn part(&mut self, event: &Event, text: &mut String) -> Result<(), OutOfMemory>
        requires timely { event.now.at ≤ greatest_millis }
        requires plausible { IsPlausible event.now.what }
        ensures world { OnOk result (self.new.running ≡ happens self.old.running event.now) }
        ensures said { OnOk result (said_so (string_bytes text.new) self.new.tally
            ≡ behind (string_bytes text.old) (outcomes_said tally_keeping self.old.running.reading.names
            (after_event (world_of self.old.running) event.now) self.old.tally
            (outcomes (world_of self.old.running) event.now))) }
    {
        let happened = self.running.event(event)?;
        let Some(world) = self.running.world() else {
            unreachable!()
        };
        tell_outcomes(
            self.alloc,
            self.running.reader(),
            world,
            &mut self.tally,
            happened.as_slice(),
            text,
        )
    }

    /// The frames that were sent by now and stand after the mark are delivered, one at a time, and the mark moves.
    fn deliver_all(&mut self, at: Millis, text: &mut String) -> Result<(), OutOfMemory>
        requires { at ≤ greatest_millis }
        ensures world { OnOk result (self.new.running ≡ in_world self.old.running
            (after_events (world_of self.old.running) (parts_at (world_of self.old.running) at All))) }
        ensures said { OnOk result (said_so (string_bytes text.new) self.new.tally
            ≡ behind (string_bytes text.old) (events_said tally_keeping self.old.running.reading.names
            (world_of self.old.running) self.old.tally (parts_at (world_of self.old.running) at All))) }
    {
        self.running.open_world()?;
        let (first, end) = self.running.undelivered();
        for place in first..end {
            let what = What::Deliver { place: place + 1 };
            self.part(&Event { at, what }, text)?;
        }
        let what = What::Drop;
        self.part(&Event { at, what }, text)
    }

    /// A timer comes to each declared number, one at a time.
    fn time_all(&mut self, at: Millis, text: &mut String) -> Result<(), OutOfMemory>
        requires { at ≤ greatest_millis }
        ensures world { OnOk result (self.new.running ≡ in_world self.old.running
            (after_events (world_of self.old.running) (parts_at (world_of self.old.running) at Timers))) }
        ensures said { OnOk result (said_so (string_bytes text.new) self.new.tally
            ≡ behind (string_bytes text.old) (events_said tally_keeping self.old.running.reading.names
            (world_of self.old.running) self.old.tally (parts_at (world_of self.old.running) at Timers))) }
    {
        let numbers = self.running.numbers()?;
        for &node in numbers.as_slice() {
            let what = What::Ask(Ask::Timer { node });
            self.part(&Event { at, what }, text)?;
        }
        Ok(())
    }

    /// An event, one delivery or one node's timer at a time.
    fn happen(&mut self, event: &Event, text: &mut String) -> Result<(), OutOfMemory>
        requires timely { event.now.at ≤ greatest_millis }
        requires plausible { IsPlausible event.now.what }
        requires empty { string_bytes text.old ≡ [] }
        ensures { OnOk result (goes_on (string_bytes text.new) (state_of self.new)
            ≡ after_happening tally_keeping self.old.running self.old.tally event.now) }
    {
        match &event.what {
            What::All => self.deliver_all(event.at, text),
            What::Timers => self.time_all(event.at, text),
            _ => self.part(event, text),
        }
    }

    /// What a line says that was read.
    fn take(&mut self, line: &Line, text: &mut String) -> Result<(), OutOfMemory>
        requires in_range { IsInRange line.now }
        requires empty { string_bytes text.old ≡ [] }
        ensures { OnOk result (goes_on (string_bytes text.new) (state_of self.new)
            ≡ after_line tally_keeping self.old.running self.old.tally line.now) }
    {
        match line {
            Line::Event(event) => self.happen(event, text),
            declaration => self.running.declare(declaration),
        }
    }

    /// A line of votes that was read and counted.
    fn vote(&mut self, favor: &Favor, text: &mut String) -> Result<Next, OutOfMemory>
        requires { string_bytes text.old ≡ [] }
        ensures { IfOk result (λ next. step_given next (string_bytes text.new) (state_of self.new)
            ≡ after_vote tally_keeping self.old.running self.old.tally favor.now) }
    {
        match self.tally.vote(favor) {
            Ok(()) => Ok(Next::Line),
            Err(FlagRefusal::OutOfMemory) => Err(OutOfMemory),
            Err(FlagRefusal::TooMany) => {
                let refusal = too_many(self.alloc)?;
                push_bad(text, self.running.reader().lines(), &refusal)?;
                Ok(Next::Refused)
            }
        }
    }

    /// A line of another kind.
    fn other_line(&mut self, line: &[u8], text: &mut String) -> Result<Next, OutOfMemory>
        requires { string_bytes text.old ≡ [] }
        ensures { IfOk result (λ next. step_given next (string_bytes text.new) (state_of self.new)
            ≡ after_answer tally_keeping self.old.running self.old.tally (answer_in self.old.running line.now)) }
    {
        match self.running.read(line) {
            Ok(None) => Ok(Next::Line),
            Ok(Some(line)) => {
                self.take(&line, text)?;
                Ok(Next::Line)
            }
            Err(SchedRefusal::OutOfMemory) => Err(OutOfMemory),
            Err(refusal) => {
                self.refuse(&refusal, text)?;
                Ok(Next::Refused)
            }
        }
    }

    /// The line that says why the next line is refused.
    fn refuse(&self, refusal: &SchedRefusal, text: &mut String) -> Result<(), OutOfMemory>
        requires { string_bytes text.old ≡ [] }
        ensures { OnOk result (string_bytes text.new
            ≡ bad_line (self.now.running.reading.lines + 1) refusal.now) }
    {
        push_bad(text, self.running.reader().lines() + 1, refusal)
    }
}

impl Machine for Voter {
    ghost use Rattle.xl_voting.specs.States.{state_of};
    ghost use Rattle.xl_voting.specs.Tallying.{Tallying, tally_keeping};
    ghost use Rattle.xl_voting.specs.Voting.{Voting, rules as the_rules};

    type Answer = String;

    ghost State = { Voting Tallying };

    ghost state = { state_of };

    ghost rules = { the_rules tally_keeping };

    fn line(&mut self, line: &[u8], _ended: bool, text: &mut String) -> Result<Next, OutOfMemory> {
        match self.running.read_favor(line) {
            Ok(None) => self.other_line(line, text),
            Ok(Some(favor)) => self.vote(&favor, text),
            Err(SchedRefusal::OutOfMemory) => Err(OutOfMemory),
            Err(refusal) => {
                self.refuse(&refusal, text)?;
                Ok(Next::Refused)
            }
        }
    }

    fn overrun(&mut self, overrun: Overrun, text: &mut String) -> Result<(), OutOfMemory> {
        let refusal = beyond(self.alloc, overrun)?;
        self.refuse(&refusal, text)
    }

    fn close(&mut self, text: &mut String) -> Result<Verdict, OutOfMemory> {
        if self.running.reader().lines() == 0 {
            push_bad(text, 1, &SchedRefusal::missing_header(self.alloc))?;
            return Ok(Verdict::Refused);
        }
        push_count(text, self.tally.count())?;
        Ok(Verdict::Good)
    }
}

/// The refusal of a vote by which too many amendments would be named.
fn too_many(alloc: Global) -> Result<SchedRefusal, OutOfMemory>
    ensures { IfOk result (λ refusal. refusal ≡ Limit (decimal most_amendments)) }
{
    let most = (MOST_AMENDMENTS as u64).to_string(alloc)?;
    Ok(SchedRefusal::Limit(Bytes::from_vec(most.into_bytes())))
}
