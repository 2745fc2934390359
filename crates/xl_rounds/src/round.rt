ghost use Rattle.std.specs.Prelude.{◌≡◌, ◌<◌, ◌≤◌, ◌/◌, length, IsSome, IfSome, IfOk, OnOk, OnErr};
ghost use Rattle.std.specs.Result.{result_err};
ghost use Rattle.xl_base.specs.Sets.{set_id_of, IsSet};
ghost use Rattle.xl_base.specs.Moments.{greatest_millis};
ghost use Rattle.xl_closetime.specs.Resolutions.{IsResolution};
ghost use Rattle.xl_rounds.specs.Pending.{submit_refusal};
ghost use Rattle.xl_rounds.specs.Rounds.{
  first_round,
  our_position as our_position_of,
  bow_out,
  leave as leave_of,
  hold as hold_of,
  with_pending,
  agreed as agreed_of,
  accepted_round,
  is_proposing as is_proposing_of,
};

use crate::kept::Kept;
use crate::pending::Pending;
use crate::positions::Positions;
use crate::setting::{Former, Setting, Stance, setting_on};
use crate::{Agreed, Mode, Phase, RoundRefusal};
use std::alloc::Global;
use std::marker::Model;
use xl_base::{MOST_MEMBERS, Millis, NodeNo, OutOfMemory, SetId, TxId, secs_of};
use xl_disputes::HashedSets;
use xl_ledger::{LedgerNo, Registry};
use xl_wire::Proposal;

mod heartbeat;
mod proposals;
mod reading;
mod relisting;

/// What a node's first round remembers: there was none before it, and that one counts as so long.
const FIRST_FORMER: Former = Former {
    round_ms: 15_000,
    proposers: 0,
};

/// No position was taken yet.
const NO_STANCE: Stance = Stance {
    closed: 0,
    propose_sequence: 0,
    close: 0,
    time: 0,
};

/// The propose sequence that says that a member leaves.
const LEAVING: u32 = u32::MAX;

/// A round of consensus, from a node's first on. No call after `open` takes memory.
#[derive(Drop)]
pub struct Round {
    setting: Setting,
    former: Former,
    phase: Phase,
    stance: Stance,
    /// How long the round had taken at the last heartbeat, if that was ready, and nothing was accepted or started
    /// since.
    ready: Option<Millis>,
    positions: Positions,
    /// Which members left this round, from member 1 on.
    left: [bool; MOST_MEMBERS],
    /// The members' proposals on later ledgers.
    later: Kept,
    pending: Pending,
}

impl Model for Round {
    ghost use Rattle.xl_rounds.specs.Rounds.{Round};
    ghost use Rattle.xl_rounds.specs.Rest.{IsSound};

    ghost Value = { Round };

    ghost view = { λ a. record {
      setting = a.setting;
      former = a.former;
      phase = a.phase;
      stance = a.stance;
      ready = a.ready;
      positions = a.positions;
      left = a.left;
      later = a.later;
      pending = a.pending;
    } };

    ghost invariant = { λ a. IsSound a.setting a.left a.later };
}

impl Mode {
    fn is_proposing(self) -> bool
        ensures { result ≡ is_proposing_of self }
    {
        self == Mode::Proposing
    }
}

impl Round {
    /// A node's first round, on the root, or `OutOfMemory`.
    pub fn open(
        alloc: Global,
        registry: &Registry,
        root: LedgerNo,
        mode: Mode,
        now: Millis,
    ) -> Result<Round, OutOfMemory>
        requires known { root < length registry.now.headers }
        ensures { IfOk result (λ round. round ≡ first_round registry.now.headers root mode now) }
    {
        Ok(Round {
            setting: setting_on(registry, root, mode, now),
            former: FIRST_FORMER,
            phase: Phase::Open,
            stance: NO_STANCE,
            ready: None,
            positions: Positions::open(alloc)?,
            left: [false; MOST_MEMBERS],
            later: Kept::none(alloc)?,
            pending: Pending::open(alloc)?,
        })
    }

    /// Becomes a node's first round, on the root, as `open` makes it. It takes no memory, and gives back what is held
    /// row by row, so that it costs little if little is.
    pub fn reopen(&mut self, registry: &Registry, root: LedgerNo, mode: Mode, now: Millis)
        requires known { root < length registry.now.headers }
        ensures { self.new ≡ first_round registry.now.headers root mode now }
    {
        self.setting = setting_on(registry, root, mode, now);
        self.former = FIRST_FORMER;
        self.phase = Phase::Open;
        self.stance = NO_STANCE;
        self.ready = None;
        self.positions.reset();
        self.left = [false; MOST_MEMBERS];
        self.later.clear();
        self.pending.clear();
    }

    /// The ledger that the next one is to follow.
    pub fn previous(&self) -> LedgerNo
        ensures { result ≡ self.now.setting.previous }
    {
        self.setting.previous
    }

    /// How the node takes part in the round.
    pub fn mode(&self) -> Mode
        ensures { result ≡ self.now.setting.mode }
    {
        self.setting.mode
    }

    /// How far the round has come.
    pub fn phase(&self) -> Phase
        ensures { result ≡ self.now.phase }
    {
        self.phase
    }

    /// Makes a transaction pending. Refused if it is, or if as many are as may be, in this order; the round then
    /// stays.
    pub fn submit(&mut self, tx: TxId) -> Result<(), RoundRefusal>
        ensures answer { result_err result ≡ submit_refusal self.old.pending tx }
        ensures taken { OnOk result (self.new ≡ with_pending tx self.old) }
        ensures refused { OnErr result (self.new ≡ self.old) }
    {
        self.pending.submit(tx)
    }

    /// Our own set.
    pub fn own_set(&self) -> &[TxId]
        ensures value { result.now ≡ self.now.positions.own }
        ensures valid { IsSet self.now.positions.own }
    {
        self.positions.own_set()
    }

    /// The id of our own set.
    pub fn own_id(&self) -> SetId
        ensures { result ≡ set_id_of self.now.positions.own }
    {
        self.positions.own_id()
    }

    /// Makes these ids the set that the member holds, in place of an older one, and tells their id.
    pub fn hold(&mut self, member: NodeNo, set: &[TxId]) -> SetId
        requires { IsSet set.now }
        ensures named { result ≡ set_id_of set.now }
        ensures held { self.new ≡ hold_of member set.now self.old }
    {
        self.hold_with(member, set, &mut HashedSets::none())
    }

    /// The same, and the set isn't hashed if it was lately.
    pub fn hold_with(&mut self, member: NodeNo, set: &[TxId], hashed: &mut HashedSets) -> SetId
        requires { IsSet set.now }
        ensures named { result ≡ set_id_of set.now }
        ensures held { self.new ≡ hold_of member set.now self.old }
    {
        self.positions.hold(member, set, hashed)
    }

    /// The position by which a proposing node leaves the round in the phase establish, or None. The round stays as it
    /// is.
    pub fn leave(&mut self, now: Millis) -> Option<Proposal>
        requires { now ≤ greatest_millis }
        ensures answer { result ≡ leave_of now self.old }
        ensures same { self.new ≡ self.old }
    {
        if self.setting.mode.is_proposing() && self.phase == Phase::Establish {
            Some(self.bow_out(now))
        } else {
            None
        }
    }

    fn bow_out(&self, now: Millis) -> Proposal
        requires { now ≤ greatest_millis }
        ensures { result ≡ bow_out now self.now }
    {
        let mut position = self.our_position();
        position.pseq = LEAVING;
        position.time = secs_of(now);
        position
    }

    fn our_position(&self) -> Proposal
        ensures { result ≡ our_position_of self.now }
    {
        Proposal {
            prev: self.setting.previous_id,
            set: self.positions.own_id(),
            pseq: self.stance.propose_sequence,
            close: self.stance.close,
            time: self.stance.time,
        }
    }

    /// What the round agreed on.
    pub fn agreed(&self) -> Agreed
        requires ready { IsSome self.now.ready }
        ensures value { result ≡ agreed_of self.now }
        ensures valid { IsResolution result.resolution }
    {
        Agreed {
            set: self.positions.own_id(),
            close: self.stance.close,
            resolution: self.setting.resolution,
        }
    }

    /// Accepts what the round agreed on: the ids of our set are no longer pending, and the next round remembers this
    /// one.
    pub fn accept(&mut self)
        requires ready { IsSome self.old.ready }
        ensures { IfSome self.old.ready (λ round_ms. self.new ≡ accepted_round round_ms self.old) }
    {
        let round_ms = self.ready.unwrap();
        self.phase = Phase::Accepted;
        self.ready = None;
        self.former = Former {
            round_ms,
            proposers: self.positions.count(),
        };
        self.pending.take_out(self.positions.own_set());
    }
}
