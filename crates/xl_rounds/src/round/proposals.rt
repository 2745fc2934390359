ghost use Rattle.std.specs.Prelude.{◌≡◌, ◌<◌, ◌≤◌, length, Some, None, Ok, OnErr};
ghost use Rattle.xl_base.specs.Moments.{greatest_millis};
ghost use Rattle.xl_closetime.specs.Resolutions.{IsResolution};
ghost use Rattle.xl_rounds.specs.Settings.{setting_on as setting_on_of};
ghost use Rattle.xl_rounds.specs.Rounds.{on_ledger};
ghost use Rattle.xl_rounds.specs.Proposals.{
  is_past as is_past_of,
  answer as answer_of,
  answer_here as answer_here_of,
  has_left as has_left_of,
  with_answer,
  with_proposal,
  with_handed,
  later_of,
  started_round,
};

use super::{LEAVING, Round};
use crate::members::{member_at, place_of};
use crate::positions::is_old;
use crate::setting::{Setting, setting_on};
use crate::{Mode, Phase, Placed, RoundRefusal};
use xl_base::{LedgerId, MOST_MEMBERS, Millis, NodeNo, Secs, secs_of};
use xl_ledger::{LedgerNo, Registry};
use xl_wire::Proposal;

/// Whether a ledger is known, and not later than another.
fn is_past(registry: &Registry, previous: LedgerNo, id: &LedgerId) -> bool
    requires { previous < length registry.now.headers }
    ensures { result ≡ is_past_of registry.now.headers previous id.now }
{
    match registry.find(id) {
        Some(ledger) => registry.seq_of(ledger) <= registry.seq_of(previous),
        None => false,
    }
}

impl Round {
    /// Starts the round on a ledger. No member has a position then, and none has left. The later proposals on this
    /// ledger are handed to the rule, by rising member, and those on a ledger that is known and not later are dropped.
    pub fn start(&mut self, registry: &Registry, previous: LedgerNo, mode: Mode, now: Millis)
        requires known { previous < length registry.now.headers }
        requires moment { now ≤ greatest_millis }
        ensures started { self.new ≡ started_round registry.now.headers previous mode now self.old }
        // So the round is on that ledger.
        ensures setting { self.new.setting ≡ setting_on_of registry.now.headers previous mode now }
    {
        self.begin(setting_on(registry, previous, mode, now));
        let second = secs_of(now);
        let mut place = self.later.next(0);
        while place < MOST_MEMBERS {
            self.hand(registry, member_at(place), second);
            place = self.later.next(place + 1);
        }
    }

    /// Takes a member's proposal, and tells what became of it.
    ///
    /// Refused for its ledger, as an old position, as of a member that left, or as stale, in this order; the round then
    /// stays.
    pub fn proposal(
        &mut self,
        registry: &Registry,
        member: NodeNo,
        p: &Proposal,
        now: Secs,
    ) -> Result<Placed, RoundRefusal>
        requires known { self.old.setting.previous < length registry.now.headers }
        ensures answer { result ≡ answer_of registry.now.headers self.old member p.now now }
        ensures taken { self.new ≡ with_proposal registry.now.headers member p.now now self.old }
        ensures refused { OnErr result (self.new ≡ self.old) }
        // Whatever comes, the round stays on its ledger.
        ensures setting { self.new.setting ≡ self.old.setting }
    {
        let answer = self.answer(registry, member, p, now);
        if let Ok(placed) = answer {
            self.place(member, p, placed);
        }
        answer
    }

    fn answer(
        &self,
        registry: &Registry,
        member: NodeNo,
        p: &Proposal,
        now: Secs,
    ) -> Result<Placed, RoundRefusal>
        requires known { self.now.setting.previous < length registry.now.headers }
        ensures { result ≡ answer_of registry.now.headers self.now member p.now now }
    {
        if p.prev == self.setting.previous_id {
            return self.answer_here(member, p, now);
        }
        if is_past(registry, self.setting.previous, &p.prev) {
            return Err(RoundRefusal::WrongPrev(self.setting.previous_id));
        }
        Ok(Placed::Later)
    }

    /// The answer to a proposal on our ledger.
    fn answer_here(&self, member: NodeNo, p: &Proposal, now: Secs) -> Result<Placed, RoundRefusal>
        ensures { result ≡ answer_here_of self.now member p.now now }
    {
        if let Some(kept) = self.positions.of(member) {
            if p.pseq <= kept.pseq {
                return Err(RoundRefusal::OldPosition(kept.pseq));
            }
        }
        if self.left[place_of(member)] {
            return Err(RoundRefusal::Left(member));
        }
        if is_old(now, p) {
            return Err(RoundRefusal::StaleProposal(now));
        }
        if p.pseq == LEAVING {
            return Ok(Placed::Gone);
        }
        Ok(Placed::Position)
    }

    fn place(&mut self, member: NodeNo, p: &Proposal, placed: Placed)
        ensures { self.new ≡ with_answer (Ok placed) member p.now self.old }
    {
        match placed {
            Placed::Position => self.positions.put(member, p),
            Placed::Later => self.later.put(place_of(member), p),
            Placed::Gone => {
                self.positions.remove(member);
                self.left[place_of(member)] = true;
            }
        }
    }

    /// A round in this setting, without positions and with nobody that left.
    fn begin(&mut self, setting: Setting)
        requires { IsResolution setting.resolution }
        ensures { self.new ≡ on_ledger setting self.old }
    {
        self.setting = setting;
        self.phase = Phase::Open;
        self.ready = None;
        self.positions.clear();
        self.left = [false; MOST_MEMBERS];
    }

    /// Hands a member's later proposal, if there is one, to the rule if it is on our ledger.
    fn hand(&mut self, registry: &Registry, member: NodeNo, now: Secs)
        requires known { self.old.setting.previous < length registry.now.headers }
        ensures { self.new ≡ with_handed registry.now.headers member (later_of self.old member) now self.old }
    {
        let place = place_of(member);
        let Some(p) = *self.later.at(place) else {
            return;
        };
        if p.prev == self.setting.previous_id {
            self.later.remove(place);
            let _ = self.proposal(registry, member, &p, now);
        } else if is_past(registry, self.setting.previous, &p.prev) {
            self.later.remove(place);
        }
    }
}
