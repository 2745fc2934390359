ghost use Rattle.std.specs.Prelude.{◌≡◌, ◌≤◌, ◌+◌, ◌*◌, ◌/◌, is_some};
ghost use Rattle.xl_base.specs.Moments.{greatest_millis};
ghost use Rattle.xl_rounds.specs.Heartbeats.{
  quiet_reply,
  said_of,
  waiting_of,
  closed_at,
  open_beat as open_beat_of,
  percent_of as percent_of_former,
  after_vote,
  decision as decision_of,
  is_renewed as is_renewed_of,
  with_new_position,
  after_third,
  said_in_third,
  tally as tally_of,
  outcome as outcome_of,
  kind_of as kind_of_outcome,
  ready_after as ready_after_outcome,
  establish_reply,
  establish_beat as establish_beat_of,
  heartbeat as heartbeat_of,
  is_ready,
};
ghost use Rattle.xl_rounds.specs.Agreement.{consensus};

use super::Round;
use crate::agreement::{Consensus, LEAST_MS, Tally, consensus_of};
use crate::closing::{Waiting, should_close};
use crate::decision::Decision;
use crate::setting::{Former, Stance};
use crate::{Heartbeat, HeartbeatKind, Phase, Said, Seen};
use xl_base::{Millis, Secs, secs_of};
use xl_closetime::round_close;
use xl_disputes::{HashedSets, threshold};

/// The percent of time is taken of no less than this.
const LEAST_FORMER_MS: Millis = 5_000;

/// Our position is renewed after this many seconds.
const RENEWED_SECS: Secs = 12;

/// The greatest propose sequence except for the one that says that a member leaves.
const LAST_SEQUENCE: u32 = u32::MAX - 1;

/// How long a round has taken, in percent of the one before it.
fn percent_of(former: Former, round_ms: Millis) -> u64
    requires { round_ms ≤ greatest_millis }
    ensures { result ≡ percent_of_former former round_ms }
{
    round_ms * 100 / former.round_ms.max(LEAST_FORMER_MS)
}

/// What the round is ready for, if there is consensus and agreement on the close time.
fn outcome(found: Consensus, agreed: bool) -> Option<HeartbeatKind>
    ensures { result ≡ outcome_of found agreed }
{
    if !agreed {
        return None;
    }
    match found {
        Consensus::No => None,
        Consensus::Yes => Some(HeartbeatKind::Ready { moved_on: false }),
        Consensus::MovedOn => Some(HeartbeatKind::Ready { moved_on: true }),
    }
}

fn kind_of(reached: Option<HeartbeatKind>, is_new: bool) -> HeartbeatKind
    ensures { result ≡ kind_of_outcome reached is_new }
{
    match reached {
        Some(ready) => ready,
        None if is_new => HeartbeatKind::Updated,
        None => HeartbeatKind::Nothing,
    }
}

fn ready_after(reached: Option<HeartbeatKind>, round_ms: Millis) -> Option<Millis>
    ensures { result ≡ ready_after_outcome reached round_ms }
{
    match reached {
        Some(_) => Some(round_ms),
        None => None,
    }
}

impl Round {
    /// Lets the round's phase go on at a moment, and tells what happened and what is to be sent.
    ///
    /// An open round closes, or nothing happens. An established one may renew our position, and may come to be ready,
    /// which is when the ledger that it agreed on is to be accepted. An accepted one waits for the next start.
    pub fn heartbeat(&mut self, now: Millis, seen: Seen) -> Heartbeat
        requires { now ≤ greatest_millis }
        ensures told { result ≡ (heartbeat_of now seen self.old).answer }
        ensures after { self.new ≡ (heartbeat_of now seen self.old).round }
        // So a round is ready after this heartbeat exactly if it tells so, and stays on its ledger.
        ensures ready { is_some self.new.ready ≡ is_ready result.kind }
        ensures setting { self.new.setting ≡ self.old.setting }
    {
        self.heartbeat_with(now, seen, &mut HashedSets::none())
    }

    /// The same, and our set isn't hashed if it was lately.
    pub fn heartbeat_with(&mut self, now: Millis, seen: Seen, hashed: &mut HashedSets) -> Heartbeat
        requires { now ≤ greatest_millis }
        ensures told { result ≡ (heartbeat_of now seen self.old).answer }
        ensures after { self.new ≡ (heartbeat_of now seen self.old).round }
        ensures ready { is_some self.new.ready ≡ is_ready result.kind }
        ensures setting { self.new.setting ≡ self.old.setting }
    {
        match self.phase {
            Phase::Open => self.open_beat(now, seen.validated, hashed),
            Phase::Establish => self.establish_beat(now, seen.finished, hashed),
            Phase::Accepted => self.rest(),
        }
    }

    fn rest(&mut self) -> Heartbeat
        ensures told { result ≡ (quiet_reply self.old).answer }
        ensures after { self.new ≡ (quiet_reply self.old).round }
    {
        self.ready = None;
        Heartbeat {
            kind: HeartbeatKind::Nothing,
            said: None,
        }
    }

    /// Our position, if we propose it, with our set or without.
    fn said(&self, with_set: bool) -> Option<Said>
        ensures { result ≡ said_of self.now with_set }
    {
        if self.setting.mode.is_proposing() {
            Some(Said {
                proposal: self.our_position(),
                with_set,
            })
        } else {
            None
        }
    }

    fn open_beat(&mut self, now: Millis, validated: u32, hashed: &mut HashedSets) -> Heartbeat
        requires { now ≤ greatest_millis }
        ensures told { result ≡ (open_beat_of now validated self.old).answer }
        ensures after { self.new ≡ (open_beat_of now validated self.old).round }
    {
        if !should_close(self.waiting(now, validated)) {
            return self.rest();
        }
        self.close(now, hashed);
        Heartbeat {
            kind: HeartbeatKind::Closed,
            said: self.said(true),
        }
    }

    fn waiting(&self, now: Millis, validated: u32) -> Waiting
        ensures { result ≡ waiting_of self.now now validated }
    {
        Waiting {
            previous_ms: self.former.round_ms,
            elapsed: now.saturating_sub(self.setting.started),
            closed: self.positions.count(),
            validated,
            previous_proposers: self.former.proposers,
            pending: self.pending.as_slice().len(),
        }
    }

    /// Closes the open phase: the pending ids are our set.
    fn close(&mut self, now: Millis, hashed: &mut HashedSets)
        requires { now ≤ greatest_millis }
        ensures { self.new ≡ closed_at now self.old }
    {
        let second = secs_of(now);
        self.phase = Phase::Establish;
        self.ready = None;
        self.stance = Stance {
            closed: now,
            propose_sequence: 0,
            close: second,
            time: second,
        };
        self.positions.own(self.pending.as_slice(), hashed);
    }

    fn establish_beat(&mut self, now: Millis, finished: u32, hashed: &mut HashedSets) -> Heartbeat
        requires { now ≤ greatest_millis }
        ensures told { result ≡ (establish_beat_of now finished self.old).answer }
        ensures after { self.new ≡ (establish_beat_of now finished self.old).round }
    {
        let round_ms = now.saturating_sub(self.stance.closed);
        if round_ms < LEAST_MS {
            return self.rest();
        }
        self.establish(round_ms, secs_of(now), finished, hashed)
    }

    /// The lines of the phase establish, in their order.
    fn establish(
        &mut self,
        round_ms: Millis,
        second: Secs,
        finished: u32,
        hashed: &mut HashedSets,
    ) -> Heartbeat
        requires { round_ms ≤ greatest_millis }
        ensures told { result ≡ (establish_reply round_ms second finished self.old).answer }
        ensures after { self.new ≡ (establish_reply round_ms second finished self.old).round }
    {
        let decision = self.decide(round_ms, second, hashed);
        let is_new = self.is_renewed(second, decision);
        let said = self.renew_if(is_new, second, decision);
        let found = consensus_of(self.tally(round_ms, finished));
        let reached = outcome(found, decision.choice.agreed);
        self.ready = ready_after(reached, round_ms);
        Heartbeat {
            kind: kind_of(reached, is_new),
            said,
        }
    }

    /// Removes old positions, takes the set that wins by the votes, and chooses a close time.
    fn decide(&mut self, round_ms: Millis, second: Secs, hashed: &mut HashedSets) -> Decision
        requires { round_ms ≤ greatest_millis }
        ensures decision { result ≡ decision_of self.old round_ms second }
        ensures voted { self.new ≡ after_vote self.old round_ms second }
    {
        let proposing = self.setting.mode.is_proposing();
        let needed = threshold(percent_of(self.former, round_ms));
        self.positions.remove_old(second);
        let choice = self.positions.choose_close(
            self.stance.close,
            proposing,
            needed,
            self.setting.resolution,
        );
        let changed = self.positions.update(needed, proposing, hashed);
        Decision { changed, choice }
    }

    fn is_renewed(&self, second: Secs, decision: Decision) -> bool
        ensures { result ≡ is_renewed_of self.now second decision }
    {
        let ours = round_close(self.stance.close, self.setting.resolution);
        decision.changed
            || decision.choice.close != ours
            || self.stance.time <= second.saturating_sub(RENEWED_SECS)
    }

    /// Renews our position, if it is to be renewed, and tells what is to be sent.
    fn renew_if(&mut self, is_new: bool, second: Secs, decision: Decision) -> Option<Said>
        requires { is_new ≡ is_renewed_of self.old second decision }
        ensures said { result ≡ said_in_third self.old second decision }
        ensures renewed { self.new ≡ after_third self.old second decision }
    {
        if !is_new {
            return None;
        }
        self.renew(decision.choice.close, second);
        self.said(decision.changed)
    }

    fn renew(&mut self, close: Secs, second: Secs)
        ensures { self.new ≡ with_new_position close second self.old }
    {
        self.stance = Stance {
            closed: self.stance.closed,
            propose_sequence: self
                .stance
                .propose_sequence
                .saturating_add(1)
                .min(LAST_SEQUENCE),
            close,
            time: second,
        };
    }

    fn tally(&self, round_ms: Millis, finished: u32) -> Tally
        ensures value { result ≡ tally_of self.now round_ms finished }
        ensures ours { result.positions ≤ result.total }
    {
        let positions = self.positions.count();
        let us = if self.setting.mode.is_proposing() {
            1
        } else {
            0
        };
        Tally {
            round_ms,
            previous_ms: self.former.round_ms,
            positions,
            previous_proposers: self.former.proposers,
            agree: self.positions.agreeing() + us,
            total: positions + us,
            finished,
        }
    }
}
