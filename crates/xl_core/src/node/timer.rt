ghost use Rattle.std.specs.Prelude.{◌≡◌, ◌-◌, ◌^◌, ◌<◌, ◌≤◌, ℕ, IsSome, IfSome, OnOk, OnErr, is_some, None, length};
ghost use Rattle.xl_base.specs.Moments.{greatest_millis};
ghost use Rattle.xl_ledger.specs.Headers.{header_id};
ghost use Rattle.xl_ledger.specs.Registries.{add_refusal, with_header};
ghost use Rattle.xl_base.specs.Refusals.{unless_refused};
ghost use Rattle.xl_rounds.specs.Heartbeats.{heartbeat, is_ready};
ghost use Rattle.xl_core.specs.Building.{knowing_of, alone as alone_of};
ghost use Rattle.xl_core.specs.Hashing.{header_on};
ghost use Rattle.xl_core.specs.Keeping.{CountsFault, IsAsked};
ghost use Rattle.xl_core.specs.Node.{
  at_moment,
  timer_outcome,
  chosen,
  switch_outcome,
  seen_of,
  heartbeat_outcome,
  next_header as built_of,
  built_outcome,
};
ghost use Rattle.xl_core.specs.Replies.{save_in, was_kept};
ghost use Rattle.xl_core.specs.declared.timer_part.TimerPart.TheVariants.{Quiet as quiet_of};
ghost use Rattle.xl_core.specs.TimerParts.{outcome_by, asks_in, validating_reply, concluding_reply, validated_reply, IsBuilt, IsKnown, IsTimerPart};

use super::{Node, usual_mode};
use crate::hashes::Hashes;
use crate::last_built::{Basis, LastBuilt, NextLedger, Terms};
use crate::timer_part::{Built, TimerPart};
use crate::{OwnValidation, Refusal, TimerAnswer};
use xl_base::{LedgerId, Millis};
use xl_closetime::effective;
use xl_disputes::HashedSets;
use xl_io::Keeper;
use xl_ledger::{AddRefusal, Branch, Header, LedgerNo};
use xl_rounds::{Heartbeat, HeartbeatKind, Mode, Phase, Said, Seen};
use xl_wire::Proposal;

/// A position that is said without the set.
fn alone(position: Option<Proposal>) -> Option<Said>
    ensures { result ≡ alone_of position }
{
    position.map(|proposal| Said {
        proposal,
        with_set: false,
    })
}

/// A timer that built nothing comes to this.
fn quiet(answer: TimerAnswer, said: &Option<Said>) -> TimerPart
    ensures { result ≡ quiet_of answer said.now }
{
    TimerPart::Quiet {
        answer,
        said: *said,
    }
}

impl<B: Branch + Drop> Node<B> {
    /// Looks at the votes, and lets the round go on or switches to another ledger. A ledger on which the round agreed
    /// is built and accepted, if there is room for it; `conclude` goes on from there.
    ///
    /// What it comes to is large, so it is written where it is to stand, here and in each call below.
    #[inline(never)]
    pub(crate) fn timer(&mut self, now: Millis, hashes: &mut Hashes, part: &mut TimerPart)
        requires moment { now ≤ greatest_millis }
        ensures exact { outcome_by part.new self.new ≡ timer_outcome (at_moment now self.old) }
        ensures part { IsTimerPart self.new part.new }
    {
        self.advance(now);
        let ledger = self.chosen();
        if ledger == self.round.previous() {
            self.go_on(hashes, part)
        } else {
            self.switch(ledger, part)
        }
    }

    /// The ledger that the votes choose to go on with.
    fn chosen(&self) -> LedgerNo
        ensures value { result ≡ chosen self.now }
        ensures known { result < length self.now.ledgers.headers }
    {
        let mut walk = self.registry.walk();
        self.table
            .choose(&mut walk, self.round.previous(), self.kept)
    }

    /// Leaves the round for one on another ledger.
    fn switch(&mut self, ledger: LedgerNo, part: &mut TimerPart)
        requires known { ledger < length self.old.ledgers.headers }
        ensures exact { outcome_by part.new self.new ≡ switch_outcome self.old ledger }
        ensures part { IsTimerPart self.new part.new }
    {
        let said = alone(self.round.leave(self.time));
        self.round
            .start(&self.registry, ledger, Mode::SwitchedLedger, self.time);
        *part = TimerPart::Quiet {
            answer: TimerAnswer::Switched(
                self.registry.seq_of(ledger),
                self.registry.id_at(ledger),
            ),
            said,
        };
    }

    /// The members other than us that have validated the round's previous ledger.
    fn validated(&self) -> u32
        ensures { result ≡ (seen_of self.now).validated }
    {
        let previous = self.round.previous();
        self.table.named(&self.registry.id_at(previous))
    }

    /// The votes for ledgers that build on the round's previous one.
    fn finished(&self) -> u32
        ensures { result ≡ (seen_of self.now).finished }
    {
        self.table.finished(&self.registry, self.round.previous())
    }

    /// What the round learns of the validations, as far as its phase asks for it.
    fn seen(&self) -> Seen
        ensures { (now : ℕ) →
            heartbeat now result self.now.round ≡ heartbeat now (seen_of self.now) self.now.round }
    {
        match self.round.phase() {
            Phase::Open => Seen {
                validated: self.validated(),
                finished: 0,
            },
            Phase::Establish => Seen {
                validated: 0,
                finished: self.finished(),
            },
            Phase::Accepted => Seen {
                validated: 0,
                finished: 0,
            },
        }
    }

    /// The round's heartbeat.
    fn heartbeat(&mut self, hashed: &mut HashedSets) -> Heartbeat
        ensures told { result ≡ (heartbeat self.old.time (seen_of self.old) self.old.round).answer }
        ensures after { self.new ≡ record self.old {
          round = (heartbeat self.old.time (seen_of self.old) self.old.round).round;
        } }
        ensures ready { is_some self.new.round.ready ≡ is_ready result.kind }
    {
        let seen = self.seen();
        self.round.heartbeat_with(self.time, seen, hashed)
    }

    /// The round's phase goes on.
    fn go_on(&mut self, hashes: &mut Hashes, part: &mut TimerPart)
        ensures exact { outcome_by part.new self.new ≡
            heartbeat_outcome self.old (heartbeat self.old.time (seen_of self.old) self.old.round) }
        ensures part { IsTimerPart self.new part.new }
    {
        let beat = self.heartbeat(&mut hashes.sets);
        let said = &beat.said;
        match beat.kind {
            HeartbeatKind::Nothing => *part = quiet(TimerAnswer::Nothing, said),
            HeartbeatKind::Closed => *part = quiet(TimerAnswer::Closed, said),
            HeartbeatKind::Updated => *part = quiet(TimerAnswer::Updated, said),
            HeartbeatKind::Ready { moved_on } => self.build(
                said,
                moved_on,
                &mut hashes.built,
                part,
            ),
        }
    }

    /// Builds and accepts the ledger for which the round is ready, if there is room for it.
    fn build(
        &mut self,
        said: &Option<Said>,
        moved_on: bool,
        built: &mut LastBuilt,
        part: &mut TimerPart,
    )
        requires ready { IsSome self.old.round.ready }
        ensures exact { outcome_by part.new self.new ≡
            built_outcome self.old said.now moved_on (knowing_of self.old.ledgers (built_of self.old)) }
        ensures part { IsTimerPart self.new part.new }
    {
        let NextLedger { header, id } = self.next_ledger(built);
        match self.know(&header, &id) {
            Some(ledger) => {
                self.round.accept();
                *part = TimerPart::Built(Built {
                    said: *said,
                    header,
                    id,
                    ledger,
                    moved_on,
                });
            }
            None => *part = quiet(TimerAnswer::NoRoom(self.registry.limit()), said),
        }
    }

    /// The ledger that follows the previous one by what the round agreed on.
    fn next_ledger(&self, built: &mut LastBuilt) -> NextLedger
        requires ready { IsSome self.now.round.ready }
        ensures header { result.header ≡ built_of self.now }
        ensures id { result.id ≡ header_id result.header }
    {
        built.next(&self.basis())
    }

    /// What the next ledger is built on: the previous ledger, and what the round agreed on.
    fn basis(&self) -> Basis
        requires ready { IsSome self.now.round.ready }
        ensures header { header_on result ≡ built_of self.now }
        ensures below { result.parent.seq < 2 ^ 32 - 1 }
    {
        let previous = self.round.previous();
        // A ledger's sequence is below the limit of ledgers, and so far below the greatest.
        let _ = self.registry.seq_of(previous);
        let id = self.registry.id_at(previous);
        let parent = self.registry.walk().header(previous);
        let agreed = self.round.agreed();
        let close = effective(agreed.close, agreed.resolution, parent.close);
        Basis {
            parent: *parent,
            terms: Terms {
                parent_id: id,
                set: agreed.set,
                close,
                resolution: agreed.resolution,
            },
        }
    }

    /// Adds the built ledger, unless it is known, and answers its place; None if there is no room for it.
    fn know(&mut self, h: &Header, id: &LedgerId) -> Option<LedgerNo>
        requires built { h.now ≡ built_of self.old }
        requires id { id.now ≡ header_id h.now }
        ensures none { result ≡ None → (knowing_of self.old.ledgers h.now ≡ None) × (self.new ≡ self.old) }
        ensures some { IfSome result (λ ledger. IsKnown self.old self.new h.now ledger) }
    {
        if let Some(ledger) = self.registry.find(id) {
            return Some(ledger);
        }
        match self.add(h, id) {
            Ok(ledger) => Some(ledger),
            // It follows a known ledger, so that only room can lack.
            Err(_) => None,
        }
    }

    /// Adds a header to the known ledgers, and takes the votes that waited for it.
    fn add(&mut self, h: &Header, id: &LedgerId) -> Result<LedgerNo, AddRefusal>
        requires { id.now ≡ header_id h.now }
        ensures exact { result ≡ unless_refused (add_refusal self.old.ledgers h.now) (length self.old.ledgers.headers) }
        ensures added { OnOk result (self.new ≡ record self.old { ledgers = with_header self.old.ledgers h.now }) }
        ensures refused { OnErr result (self.new ≡ self.old) }
    {
        let ledger = self.registry.add_named(h, id)?;
        self.table.header_known(&self.registry, ledger);
        Ok(ledger)
    }

    /// Issues the validation of a built ledger, if that is to be validated, and starts a round on the ledger.
    pub(crate) fn conclude<K: Keeper>(
        &mut self,
        built: &Built,
        keeper: &mut K,
    ) -> Result<Option<OwnValidation>, Refusal>
        requires built { IsBuilt self.old built.now }
        ensures exact { validated_reply result self.new ≡ concluding_reply self.old built.now (save_in result) }
        ensures fault { CountsFault result (K.faults keeper.old) (K.faults keeper.new) }
        ensures asks { IsAsked K.held K.saves K.faults K.save_gives
            (asks_in self.old built.now) (was_kept result) keeper.old keeper.new }
    {
        let outcome = self.validate(built, keeper);
        let mode = usual_mode(self.validating);
        self.round
            .start(&self.registry, built.ledger, mode, self.time);
        outcome
    }

    /// Issues the validation of a built ledger, if the node is a validator and the members haven't moved on.
    fn validate<K: Keeper>(
        &mut self,
        built: &Built,
        keeper: &mut K,
    ) -> Result<Option<OwnValidation>, Refusal>
        requires built { IsBuilt self.old built.now }
        ensures exact { validated_reply result self.new ≡ validating_reply self.old built.now (save_in result) }
        ensures fault { CountsFault result (K.faults keeper.old) (K.faults keeper.new) }
        ensures asks { IsAsked K.held K.saves K.faults K.save_gives
            (asks_in self.old built.now) (was_kept result) keeper.old keeper.new }
    {
        if !self.validating || built.moved_on {
            return Ok(None);
        }
        let full = self.round.mode() == Mode::Proposing;
        let own = self.issue_now(built.header.seq, built.id, full, keeper)?;
        Ok(Some(own))
    }
}
