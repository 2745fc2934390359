ghost use Rattle.std.specs.Prelude.{◌≡◌, ◌≤◌, ◌⊎◌, length, option_copied, None, Err, Ok, IfOk, IfErr, IfSome, MatchResult, OnOk, OnErr};
ghost use Rattle.xl_base.specs.Moments.{greatest_millis};
ghost use Rattle.xl_sched.specs.Answers.{answered, refuses};
ghost use Rattle.xl_sched.specs.Favors.{after_favor, favor_line};
ghost use Rattle.xl_world.specs.Schedule.{IsPlausible, outcomes};
ghost use Rattle.xl_running.specs.Running.{IsInRange, answer_in, at_first, declares, happens, in_world, knows, world_of};

use std::alloc::Global;
use std::marker::Model;
use xl_base::{NodeNo, OutOfMemory};
use xl_sched::{Event, Favor, Line, Reader, SchedRefusal};
use xl_world::{Happened, Plan, PlanNode, World};

/// How many ledgers each node may know if no `limit` line says it.
pub const DEFAULT_LIMIT: u32 = 1_024;

/// The version of all validations if no `speak` line says it.
pub const DEFAULT_SPEAK: u8 = 1;

/// A schedule so far: what was read, the limit, version, nodes and liars that are declared, and from the first event on
/// the world. After `OutOfMemory` it may be any.
#[derive(Drop)]
pub struct Running {
    alloc: Global,
    reader: Reader,
    plan: Plan,
    world: Option<World>,
}

impl Model for Running {
    ghost use Rattle.xl_running.specs.Running.{Running as TheRunning};
    ghost use Rattle.xl_running.specs.Seen.{running_seen, MayOpen};

    ghost Value = { TheRunning };

    ghost view = { running_seen };

    ghost invariant = { λ r. MayOpen r };
}

impl Running {
    /// Before the first line.
    pub fn open(alloc: Global) -> Result<Running, OutOfMemory>
        ensures { IfOk result (λ running. running ≡ at_first) }
    {
        Ok(Running {
            alloc,
            reader: Reader::open(alloc)?,
            plan: Plan {
                nodes: Vec::new(alloc),
                liars: Vec::new(alloc),
                limit: DEFAULT_LIMIT,
                speak: DEFAULT_SPEAK,
            },
            world: None,
        })
    }

    /// What was read so far.
    pub fn reader(&self) -> &Reader
        ensures { result.now ≡ self.now.reading }
    {
        &self.reader
    }

    /// The world, from the first event or from `open_world` on.
    pub fn world(&self) -> Option<&World>
        ensures { option_copied result ≡ self.now.world }
    {
        self.world.as_ref()
    }

    /// How many frames were sent so far.
    fn sent(&self) -> u64
        ensures { result ≡ length (world_of self.now).sent }
    {
        match &self.world {
            Some(world) => world.sent().len() as u64,
            None => 0,
        }
    }

    /// Reads the next line, without the byte that ends it. None comes exactly for the header, an empty line and a
    /// comment. What it says is to be taken in by `declare` or `event`.
    pub fn read(&mut self, line: &[u8]) -> Result<Option<Line>, SchedRefusal>
        ensures read { IfOk result (λ read. answer_in self.old line.now ≡ answered read self.new.reading) }
        ensures refused { IfErr result (λ refusal.
            (refusal ≡ SchedRefusal.OutOfMemory) ⊎ (answer_in self.old line.now ≡ refuses refusal)) }
        ensures range { IfOk result (λ read. IfSome read IsInRange) }
        ensures known { self.new ≡ knows self.old self.new.reading }
        ensures kept { OnErr result (self.new ≡ self.old) }
    {
        let sent = self.sent();
        self.reader.read_line(line, sent)
    }

    /// The same, and what the line says is put into its place: it is large, and an answer would copy it.
    pub fn read_into(&mut self, line: &[u8], said: &mut Option<Line>) -> Result<(), SchedRefusal>
        requires { said.old ≡ None }
        ensures read { OnOk result (answer_in self.old line.now ≡ answered said.new self.new.reading) }
        ensures refused { IfErr result (λ refusal.
            (refusal ≡ SchedRefusal.OutOfMemory) ⊎ (answer_in self.old line.now ≡ refuses refusal)) }
        ensures range { OnOk result (IfSome said.new IsInRange) }
        ensures known { self.new ≡ knows self.old self.new.reading }
        ensures kept { OnErr result (self.new ≡ self.old) }
    {
        let sent = self.sent();
        self.reader.read_into(line, sent, said)
    }

    /// Reads the next line where its first token is `favor`, for which `read` has no word. None comes exactly for another
    /// line, for line 1, and for a line that is too long or one too many: that line isn't read then.
    pub fn read_favor(&mut self, line: &[u8]) -> Result<Option<Favor>, SchedRefusal>
        ensures read { MatchResult result
            (λ read. favor_line self.old.reading line.now ≡ Ok read)
            (λ refusal. (refusal ≡ SchedRefusal.OutOfMemory) ⊎ (favor_line self.old.reading line.now ≡ Err refusal)) }
        ensures known { IfOk result (λ read. self.new ≡ knows self.old (after_favor self.old.reading read)) }
        ensures kept { OnErr result (self.new ≡ self.old) }
    {
        self.reader.read_favor(line)
    }

    /// Takes in what a line declares that was read; an event is none of these.
    pub fn declare(&mut self, line: &Line) -> Result<(), OutOfMemory>
        requires { IsInRange line.now }
        ensures { OnOk result (self.new ≡ declares self.old line.now) }
    {
        match line {
            Line::Limit(limit) => self.plan.limit = *limit,
            Line::Speak(version) => self.plan.speak = *version,
            Line::Node {
                me,
                list,
                validating,
            } => self.plan.nodes.push(PlanNode {
                me: *me,
                list: list.copy(),
                validating: *validating,
                moment: self.reader.moment(),
            })?,
            Line::Liar(me) => self.plan.liars.push(*me)?,
            Line::Name { .. } | Line::Ledger { .. } | Line::At(_) | Line::Event(_) => {}
        }
        Ok(())
    }

    /// Opens the world if there is none yet: before the first event it is the one of the plan.
    pub fn open_world(&mut self) -> Result<(), OutOfMemory>
        ensures { OnOk result (self.new ≡ in_world self.old (world_of self.old)) }
    {
        if self.world.is_some() {
            return Ok(());
        }
        self.make_world()
    }

    /// The world is that of the plan.
    // A world is large, and in the caller's each event would clear a place for it.
    #[inline(never)]
    fn make_world(&mut self) -> Result<(), OutOfMemory>
        requires { self.old.world ≡ None }
        ensures { OnOk result (self.new ≡ in_world self.old (world_of self.old)) }
    {
        self.world = Some(World::open(self.alloc, &self.plan)?);
        Ok(())
    }

    /// Which of the sent frames stand after the mark: those from the first place on, below the second.
    pub fn undelivered(&self) -> (u64, u64)
        ensures mark { result.0 ≡ (world_of self.now).mark }
        ensures sent { result.1 ≡ length (world_of self.now).sent }
    {
        match &self.world {
            Some(world) => (world.mark() as u64, world.sent().len() as u64),
            None => (0, 0),
        }
    }

    /// All declared numbers, rising. The world is opened if there is none yet.
    pub fn numbers(&mut self) -> Result<Vec<NodeNo>, OutOfMemory>
        ensures numbers { IfOk result (λ numbers. numbers.items ≡ (world_of self.old).numbers) }
        ensures world { OnOk result (self.new ≡ in_world self.old (world_of self.old)) }
    {
        self.open_world()?;
        let Some(world) = &self.world else {
            unreachable!()
        };
        Ok(Vec::from_slice(self.alloc, world.numbers())?)
    }

    /// An event is a step of the world. What is told of it comes back, in order.
    pub fn event(&mut self, event: &Event) -> Result<Happened, OutOfMemory>
        requires timely { event.now.at ≤ greatest_millis }
        requires plausible { IsPlausible event.now.what }
        ensures world { OnOk result (self.new ≡ happens self.old event.now) }
        ensures told { IfOk result (λ told. told ≡ outcomes (world_of self.old) event.now) }
    {
        self.open_world()?;
        let Some(world) = &mut self.world else {
            unreachable!()
        };
        world.event(event)
    }
}
