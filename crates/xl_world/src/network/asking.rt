// What the nodes are asked: to issue or to look at their votes, to greet, to change their list.
ghost use Rattle.std.specs.Prelude.{◌≡◌, ◌≤◌, ◌++◌, OnOk};
ghost use Rattle.xl_base.specs.Moments.{greatest_millis};
ghost use Rattle.xl_world.specs.Ends.{Grows};
ghost use Rattle.xl_world.specs.Rested.{IsAtRest};
ghost use Rattle.xl_world.specs.Schedule.{IsPlausible, ask_steps, event_asked, greet_steps, node_asked, outcomes_at, steps_at, timers, told_in};
ghost use Rattle.xl_world.specs.Seen.{MayDo, deed_event};
ghost use Rattle.xl_world.specs.World.{run};
ghost use Rattle.xl_world.specs.declared.place.Fate.TheVariants.{Saved};

use super::Network;
use crate::Outcome;
use crate::act::NodeAnswer;
use crate::place::Fate;
use xl_base::{Millis, NodeNo, OutOfMemory};
use xl_core::Deed;
use xl_lists::List;
use xl_sched::{Ask, What};

impl Network {
    /// A node is asked something, and its save, if any, meets a fate.
    // What happens has its own place in each of these calls: in the caller's each event would clear all of them.
    #[inline(never)]
    pub(super) fn ask(
        &mut self,
        at: Millis,
        ask: &Ask,
        fate: Fate,
        answer: &mut NodeAnswer,
        told: &mut Vec<Outcome>,
    ) -> Result<(), OutOfMemory>
        requires moment { at ≤ greatest_millis }
        requires rest { IsAtRest self.old }
        ensures world { OnOk result (self.new ≡ run self.old (ask_steps self.old at ask.now fate)) }
        ensures told { OnOk result (told.new.items
            ≡ told.old.items ++ told_in self.old (ask_steps self.old at ask.now fate)) }
        ensures grows { Grows self.old self.new }
    {
        let (node, deed) = asked_by(at, ask);
        self.act(node, &deed, fate, answer, told)
    }

    /// A timer comes to each node, by rising number.
    pub(super) fn timers(
        &mut self,
        at: Millis,
        answer: &mut NodeAnswer,
        told: &mut Vec<Outcome>,
    ) -> Result<(), OutOfMemory>
        requires moment { at ≤ greatest_millis }
        requires rest { IsAtRest self.old }
        ensures world { OnOk result (self.new ≡ run self.old (timers self.old at self.old.numbers)) }
        ensures told { OnOk result (told.new.items
            ≡ told.old.items ++ told_in self.old (timers self.old at self.old.numbers)) }
        ensures grows { Grows self.old self.new }
    {
        for k in 0..self.numbers.as_slice().len() {
            let node = self.numbers.as_slice()[k];
            self.ask(at, &Ask::Timer { node }, Fate::Saved, answer, told)?;
        }
        Ok(())
    }

    /// A node greets another, which is this deed; itself it doesn't greet.
    pub(super) fn greet(
        &mut self,
        node: NodeNo,
        peer: NodeNo,
        deed: &Deed<'_>,
        answer: &mut NodeAnswer,
        told: &mut Vec<Outcome>,
    ) -> Result<(), OutOfMemory>
        requires deed { deed.now ≡ Deed.Greet peer }
        requires rest { IsAtRest self.old }
        ensures world { OnOk result (self.new ≡ run self.old (greet_steps self.old node peer)) }
        ensures told { OnOk result (told.new.items
            ≡ told.old.items ++ told_in self.old (greet_steps self.old node peer)) }
        ensures grows { Grows self.old self.new }
    {
        if node == peer {
            return Ok(());
        }
        // A member's number, for which there is a key.
        let _number = peer.get();
        self.act(node, deed, Fate::Saved, answer, told)
    }

    /// A node goes over to another list.
    #[inline(never)]
    pub(super) fn relist(
        &mut self,
        at: Millis,
        node: NodeNo,
        list: &List,
        answer: &mut NodeAnswer,
        told: &mut Vec<Outcome>,
    ) -> Result<(), OutOfMemory>
        requires moment { at ≤ greatest_millis }
        requires rest { IsAtRest self.old }
        requires plausible { IsPlausible (What.List node list.now) }
        ensures world { OnOk result (self.new ≡ run self.old (steps_at self.old at (What.List node list.now))) }
        ensures told { OnOk result (told.new.items
            ≡ told.old.items ++ outcomes_at self.old at (What.List node list.now)) }
        ensures grows { Grows self.old self.new }
    {
        let deed = Deed::Relist { now: at, list };
        self.act(node, &deed, Fate::Saved, answer, told)
    }
}

/// The node that is asked, and what then happens at it.
pub(super) fn asked_by(at: Millis, ask: &Ask) -> (NodeNo, Deed<'_>)
    requires moment { at ≤ greatest_millis }
    ensures node { result.0 ≡ node_asked ask.now }
    ensures deed { (i : _) → deed_event i result.1 ≡ event_asked at ask.now }
    ensures may { (me : _) → MayDo me result.1 }
{
    match *ask {
        Ask::Issue {
            node,
            seq,
            id,
            full,
        } => {
            let deed = Deed::Issue {
                now: at,
                seq,
                id,
                full,
            };
            (node, deed)
        }
        Ask::Timer { node } => (node, Deed::Timer { now: at }),
    }
}
