// The nodes of a world, and each event of a schedule in it.
ghost use Rattle.std.specs.Prelude.{◌≡◌};
ghost use Rattle.xl_world.specs.Schedule.{failing};

mod asking;
mod handing;
mod reopening;

use crate::act::{NodeAnswer, Seat, core_at, position_of, preferred_at};
use crate::draining::drain_at;
use crate::extent::Extent;
use crate::members::Members;
use crate::place::{Fate, NodeCore, Place};
use crate::seat_table::Seats;
use crate::settle::{note_list, note_report, push_some, tell, tell_heard_at};
use crate::traffic::Traffic;
use crate::{InForce, Outcome, Plan, WorldReport, open};
use std::alloc::Global;
use std::marker::Model;
use xl_base::{Millis, NodeNo, OutOfMemory};
use xl_core::{Deed, Hashes};
use xl_lists::SaidLedger;
use xl_sched::What;
use xl_wire::LONGEST_FRAME;

/// The nodes of a world, and all that they ever sent, said and reported. A call that runs out of memory may leave it in
/// the middle of a step, with more told than before: whoever has it calls `end` then.
#[derive(Drop)]
pub struct Network {
    pub alloc: Global,
    pub liars: Vec<NodeNo>,
    pub numbers: Members,
    pub places: Vec<Place>,
    /// What a drain writes into.
    pub room: Box<[u8; LONGEST_FRAME]>,
    /// What its nodes hashed lately.
    pub hashes: Hashes,
    pub traffic: Traffic,
    pub said: Vec<SaidLedger>,
    pub reports: Vec<WorldReport>,
    pub lists: Vec<InForce>,
    pub forged: u64,
}

impl Model for Network {
    ghost use Rattle.xl_world.specs.World.{World as TheWorld};

    ghost Value = { TheWorld };

    ghost use Rattle.xl_world.specs.Worlds.{network_seen};

    ghost view = { network_seen };
}

impl Network {
    ghost use Rattle.std.specs.Prelude.{◌≡◌, ◌≤◌, ◌++◌, [], length, option_copied, Some, IfOk, OnOk};
    ghost use Rattle.xl_base.specs.Moments.{greatest_millis};
    ghost use Rattle.xl_ledger.specs.Limits.{greatest_limit, least_limit};
    ghost use Rattle.xl_world.specs.Plans.{AreDeclared, AreTimely};
    ghost use Rattle.xl_world.specs.Starts.{start};
    ghost use Rattle.xl_world.specs.World.{core_in, place_at, run};
    ghost use Rattle.xl_world.specs.Emptying.{event_steps};
    ghost use Rattle.xl_world.specs.Ends.{Grows, cut_back, extent_of};
    ghost use Rattle.xl_world.specs.Rested.{IsAtRest, IsRested};
    ghost use Rattle.xl_world.specs.Schedule.{IsPlausible, outcomes_at, steps_at, told_in};
    ghost use Rattle.xl_world.specs.Stands.{AreSeats, IsSeat};
    ghost use Rattle.xl_world.specs.Seen.{MayDo, deed_event, after_note, outcomes_told, with_forged};

    /// The network of a plan, at its start.
    pub fn open(alloc: Global, plan: &Plan) -> Result<Network, OutOfMemory>
        requires least { least_limit ≤ plan.now.limit }
        requires most { plan.now.limit ≤ greatest_limit }
        requires moments { AreTimely plan.now.nodes.items }
        ensures start { IfOk result (λ network.
            network ≡ start (record { limit = plan.now.limit; speak = plan.now.speak }) plan.now.liars.items plan.now.nodes.items) }
        ensures declared { OnOk result (AreDeclared plan.now.nodes.items) }
    {
        let places = open::places(alloc, plan.limit, plan.speak, &plan.nodes)?;
        Ok(Network {
            alloc,
            liars: Vec::from_slice(alloc, &plan.liars)?,
            numbers: Members::new(open::numbers(alloc, plan)?),
            places,
            room: Box::new(alloc, [0; LONGEST_FRAME])?,
            hashes: Hashes::none(),
            traffic: Traffic::new(alloc),
            said: Vec::new(alloc),
            reports: Vec::new(alloc),
            lists: open::lists(alloc, &plan.nodes)?,
            forged: 0,
        })
    }

    /// What came of what happened at a node is told and noted, and what waits at it is drained and sent.
    fn settle(
        &mut self,
        seat: Seat,
        answer: &NodeAnswer,
        told: &mut Vec<Outcome>,
    ) -> Result<(), OutOfMemory>
        requires seat { IsSeat self.old.places seat }
        requires rested { (p : _) → place_at seat.number self.old.places ≡ Some p → IsRested p.core }
        ensures world { OnOk result (self.new ≡ after_note self.old seat.number answer.now) }
        ensures told { OnOk result (told.new.items ≡ told.old.items ++ outcomes_told seat.number answer.now) }
        ensures grows { Grows self.old self.new }
    {
        let i = seat.number;
        tell(told, i, answer)?;
        push_some(&mut self.said, answer.said)?;
        note_report(&mut self.reports, &self.places, i, &answer.report)?;
        note_list(&mut self.lists, &self.places, i, answer.relisted)?;
        drain_at(
            &mut self.places,
            seat,
            &self.numbers,
            &mut self.room,
            &mut self.traffic,
        )
    }

    /// Something happens at a node, if there is one of the number. What comes forged isn't counted here.
    fn act(
        &mut self,
        i: NodeNo,
        deed: &Deed<'_>,
        fate: Fate,
        answer: &mut NodeAnswer,
        told: &mut Vec<Outcome>,
    ) -> Result<(), OutOfMemory>
        requires rest { IsAtRest self.old }
        requires may { MayDo i deed.now }
        ensures world { OnOk result (self.new
            ≡ with_forged self.old.forged (run self.old (event_steps self.old i (deed_event i deed.now) fate))) }
        ensures told { OnOk result (told.new.items
            ≡ told.old.items ++ told_in self.old (event_steps self.old i (deed_event i deed.now) fate)) }
        ensures grows { Grows self.old self.new }
    {
        let Some(k) = position_of(&self.places, i) else {
            return Ok(());
        };
        let place = &mut self.places[k];
        place.happens(deed, fate, &mut self.hashes, answer);
        let seat = Seat {
            number: i,
            place: k,
        };
        self.settle(seat, answer, told)
    }

    /// Something happens at a moment. What is told of it comes after what was told, and the answer is the one place into
    /// which each node that something happens at writes what came of it.
    pub fn happen(
        &mut self,
        at: Millis,
        what: &What,
        seats: &Seats,
        answer: &mut NodeAnswer,
        told: &mut Vec<Outcome>,
    ) -> Result<(), OutOfMemory>
        requires moment { at ≤ greatest_millis }
        requires seats { AreSeats seats.now self.old.places }
        requires rest { IsAtRest self.old }
        requires plausible { IsPlausible what.now }
        ensures world { OnOk result (self.new ≡ run self.old (steps_at self.old at what.now)) }
        ensures told { OnOk result (told.new.items ≡ told.old.items ++ outcomes_at self.old at what.now) }
        ensures grows { Grows self.old self.new }
    {
        match what {
            What::Ask(ask) => self.ask(at, ask, Fate::Saved, answer, told),
            What::Timers => self.timers(at, answer, told),
            What::Submit { node, tx } => {
                let deed = Deed::Submit { now: at, tx: *tx };
                self.act(*node, &deed, Fate::Saved, answer, told)
            }
            What::Greet { node, peer } => {
                let deed = Deed::Greet { member: *peer };
                self.greet(*node, *peer, &deed, answer, told)
            }
            What::Deliver { place } => match place.checked_sub(1) {
                Some(before) => self.deliver(at, before as usize, seats, answer, told),
                None => Ok(()),
            },
            What::All => self.deliver_all(at, seats, answer, told),
            What::Drop => {
                self.traffic.move_mark();
                Ok(())
            }
            What::Restart { node } => self.restart(at, *node),
            What::Cut { new, ask } => self.cut(at, *new, ask, answer, told),
            What::Fail { new, ask } => self.ask(at, ask, failing(*new), answer, told),
            What::Lie { from, to, what } => self.lie(at, *from, *to, what, answer, told),
            What::Raw { to, bytes } => self.hand_in(at, *to, bytes.as_slice(), answer, told),
            What::Prefer { node } => push_some(told, preferred_at(&self.places, *node)),
            What::List { node, list } => self.relist(at, *node, list, answer, told),
            What::Heard { node } => tell_heard_at(told, &self.places, *node),
        }
    }

    /// The core of a number, where there is one.
    pub fn core_of(&self, node: NodeNo) -> Option<&NodeCore>
        ensures { option_copied result ≡ core_in self.now node }
    {
        core_at(&self.places, node)
    }

    /// Where its nodes stand.
    pub fn seats(&self) -> Result<Seats, OutOfMemory>
        ensures { IfOk result (λ seats. AreSeats seats self.now.places) }
    {
        Seats::of(self.alloc, &self.places)
    }

    /// A place for what is told, in which nothing is yet.
    pub fn nothing_told(&self) -> Vec<Outcome>
        ensures { result.items ≡ [] }
    {
        Vec::new(self.alloc)
    }

    /// How much it has told.
    pub fn extent(&self) -> Extent
        ensures extent { result ≡ extent_of self.now }
        ensures mark { result.mark ≤ result.sent }
    {
        Extent {
            sent: self.traffic.sent().len(),
            mark: self.traffic.mark(),
            said: self.said.len(),
            reports: self.reports.len(),
            lists: self.lists.len(),
            forged: self.forged,
        }
    }

    /// It has told no more than it had before, and no node is left in it.
    // This comes once at most, and in the caller's each event would have room for all that is given back.
    #[inline(never)]
    pub fn end(&mut self, before: &Extent)
        requires sent { before.now.sent ≤ length self.old.sent }
        requires mark { before.now.mark ≤ before.now.sent }
        ensures { self.new ≡ cut_back before.now self.old }
    {
        self.places.clear();
        self.traffic.cut_back(before.sent, before.mark);
        self.said.truncate(before.said);
        self.reports.truncate(before.reports);
        self.lists.truncate(before.lists);
        self.forged = before.forged;
    }
}

/// How a save fails that leaves the new number, or the old one.
fn failing(new: bool) -> Fate
    ensures { result ≡ failing new }
{
    if new { Fate::Written } else { Fate::Unwritten }
}
