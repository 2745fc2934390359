mod readers;

use crate::act::{NodeAnswer, list_at};
use crate::agreement::all_agree;
use crate::network::Network;
use crate::place::NodeCore;
use crate::seat_table::Seats;
use crate::{Happened, InForce, Plan, SentFrames, WorldReport};
use std::alloc::Global;
use std::marker::Model;
use xl_base::{NodeNo, OutOfMemory};
use xl_lists::List;
use xl_sched::Event;

/// A world: the cores, and all that they ever sent, said and reported.
///
/// Once an event has run out of memory the world is spent: each later event answers the same. What it told before that
/// event stays, and no node is left in it.
#[derive(Drop)]
pub struct World {
    network: Network,
    /// Where its nodes stand, while it isn't spent.
    seats: Seats,
    /// What came of the last thing that happened at a node: an answer is large, so it has one place.
    answer: NodeAnswer,
    spent: bool,
}

impl Model for World {
    ghost use Rattle.xl_world.specs.World.{World as TheWorld};

    ghost Value = { TheWorld };

    ghost use Rattle.xl_world.specs.Worlds.{world_seen, IsWhole};

    ghost view = { world_seen };

    ghost invariant = { λ w. IsWhole w };
}

impl World {
    ghost use Rattle.std.specs.Prelude.{◌≡◌, ◌≤◌, ◌↔◌, option_copied, None, Some, true, false, IsErr, IsTrue, IfOk, OnOk, OnErr};
    ghost use Rattle.xl_base.specs.Moments.{greatest_millis};
    ghost use Rattle.xl_ledger.specs.Limits.{greatest_limit, least_limit};
    ghost use Rattle.xl_tags.specs.Rings.{schedule_ring};
    ghost use Rattle.xl_lists.specs.Agreement.{Agree};
    ghost use Rattle.xl_world.specs.Headline.{AgreeAt, EnoughAt, Headline};
    ghost use Rattle.xl_world.specs.Plans.{AreTimely, list_at};
    ghost use Rattle.xl_world.specs.Schedule.{IsPlausible, after_event, outcomes};
    ghost use Rattle.xl_world.specs.Starts.{IsRun, start};
    ghost use Rattle.xl_world.specs.World.{core_in, list_in, run};
    ghost use Rattle.xl_world.specs.Ends.{IsLeft, spent_world};

    /// The world of a plan, at its start.
    // Its frame is large, and in the caller's each event would pay for it.
    #[inline(never)]
    pub fn open(alloc: Global, plan: &Plan) -> Result<World, OutOfMemory>
        requires least { least_limit ≤ plan.now.limit }
        requires most { plan.now.limit ≤ greatest_limit }
        requires moments { AreTimely plan.now.nodes.items }
        ensures { IfOk result (λ world. world
            ≡ start (record { limit = plan.now.limit; speak = plan.now.speak }) plan.now.liars.items plan.now.nodes.items) }
    {
        let network = Network::open(alloc, plan)?;
        let seats = network.seats()?;
        Ok(World {
            network,
            seats,
            answer: NodeAnswer::nothing(),
            spent: false,
        })
    }

    /// An event of a schedule, and what is told of it, in order.
    ///
    /// If it runs out of memory, the world is spent: nothing more happens in it, no node is left in it, and all else is
    /// as it was before the event. A set that a liar says is one, and so is a list that is handed in.
    pub fn event(&mut self, event: &Event) -> Result<Happened, OutOfMemory>
        requires moment { event.now.at ≤ greatest_millis }
        requires plausible { IsPlausible event.now.what }
        ensures world { OnOk result (self.new ≡ after_event self.old event.now) }
        ensures told { IfOk result (λ told. told ≡ outcomes self.old event.now) }
        ensures err { OnErr result (self.new ≡ spent_world self.old) }
        ensures spent { self.old.spent ≡ true → IsErr result }
    {
        if self.spent {
            return Err(OutOfMemory);
        }
        let before = self.network.extent();
        let mut told = self.network.nothing_told();
        match self.network.happen(
            event.at,
            &event.what,
            &self.seats,
            &mut self.answer,
            &mut told,
        ) {
            Ok(()) => Ok(Happened::from_vec(told)),
            Err(fault) => {
                self.network.end(&before);
                self.spent = true;
                Err(fault)
            }
        }
    }

    /// Every frame that a node ever sent, in order.
    pub fn sent(&self) -> &SentFrames
        ensures { result.now ≡ self.now.sent }
    {
        self.network.traffic.sent()
    }

    /// The declared liars.
    pub fn liars(&self) -> &[NodeNo]
        ensures { result.now ≡ self.now.liars }
    {
        &self.network.liars
    }

    /// The list in force at a node, or None for a number that no honest node has, and for all in a spent world.
    pub fn list_of(&self, node: NodeNo) -> Option<&List>
        ensures { option_copied result ≡ list_in self.now node }
    {
        list_at(&self.network.places, node)
    }

    /// The core of a node, or None for a number that isn't a declared honest node. In a spent world it is None for all.
    pub fn node(&self, node: NodeNo) -> Option<&NodeCore>
        ensures core { option_copied result ≡ core_in self.now node }
        ensures none { (shared : _) (liars : _) (plan : _) (steps : _) → self.now ≡ run (start shared liars plan) steps →
            (option_copied result ≡ None) ↔ (list_at plan node ≡ None) }
        ensures spent { self.now.spent ≡ true → option_copied result ≡ None }
        // Its keys are those that a schedule gives its number.
        ensures keys { (core : _) → core_in self.now node ≡ Some core → core.node.keys ≡ schedule_ring node }
    {
        self.network.core_of(node)
    }

    /// Every report of a node, in order.
    pub fn reports(&self) -> &[WorldReport]
        ensures reports { result.now ≡ self.now.reports }
        // The world comes from a declared one by steps that are fit to happen, or it is what is left of one that does.
        ensures run { self.now.spent ≡ false → IsRun self.now }
        ensures left { self.now.spent ≡ true → IsLeft self.now }
        // If no frame was forged, two of one sequence name one ledger, wherever the quorums of the lists that were in
        // force at the two are enough.
        ensures agree { self.now.forged ≡ 0 → Agree self.now.liars self.now.reports }
    {
        &self.network.reports
    }

    /// Every list that was in force at a node, in order: first those that were declared.
    pub fn lists(&self) -> &[InForce]
        ensures { result.now ≡ self.now.lists }
    {
        &self.network.lists
    }

    /// How many sealed frames came that no liar signed and nobody had sent; the count ends at the greatest `u64`.
    pub fn forged(&self) -> u64
        ensures { result ≡ self.now.forged }
    {
        self.network.forged
    }

    /// Whether no report of `i` and no report of `j` share a sequence and differ in id. `i` may be `j`: reports of all
    /// its lives count.
    pub fn agreement(&self, i: NodeNo, j: NodeNo) -> bool
        ensures exact { IsTrue result ↔ AgreeAt self.now.reports i j }
        // It is so if no frame was forged, and the quorums of the lists that were in force at any two reports of one
        // sequence are enough.
        ensures enough { EnoughAt self.now.liars self.now.reports i j → self.now.forged ≡ 0 → IsTrue result }
        // And in every run of every declared plan in which no frame was forged, not in this world's alone, two reports
        // agree wherever the lists that were in force at the two are enough.
        ensures headline { Headline }
    {
        all_agree(self.reports(), i, j)
    }
}
