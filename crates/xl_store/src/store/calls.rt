ghost use Rattle.std.specs.Prelude.{◌≡◌, ◌≤◌, length, IfOk, IfErr, IsSome};
ghost use Rattle.xl_base.specs.Moments.{greatest_millis};
ghost use Rattle.xl_tags.specs.Rings.{key_of};
ghost use Rattle.xl_wire.specs.Lengths.{longest_frame};
ghost use Rattle.xl_wire.specs.Raws.{SpellsRaw, raw_frame};
ghost use Rattle.xl_core.specs.Answers.{Beats, Done, Told};
ghost use Rattle.xl_core.specs.Replies.{taken_answer, done_answer};
ghost use Rattle.xl_core.specs.declared.event.CoreEvent.TheVariants.{Issue, Frame, Timer, Submit, Greet, Stop, Stopped, Relist};
ghost use Rattle.xl_turns.specs.Passes.{known};
ghost use Rattle.xl_store.specs.Retentions.{handed_on};
ghost use Rattle.xl_store.specs.Statuses.{status_of};
ghost use Rattle.xl_store.specs.Stores.{start_of, core_seen, retention_of, IsOf, Called, Drained, HandedOut, Refused};

use super::{Handed, Pass, Store, StoreEnd};
use crate::entry::copy_of;
use crate::{NodeStatus, outcome};
use std::sync::Wait;
use xl_base::{LedgerId, Millis, NodeNo, Seq, TxId};
use xl_core::{CoreEvent, Refusal, Report, Taken, TimerAnswer};
use xl_io::Keeper;
use xl_ledger::Branch;
use xl_lists::List;
use xl_wire::Raw;

/// The core's calls. Each takes one turn, which may have to wait for others, and answers what the core's step answers
/// after all that the pass has then seen. If there is no turn nothing happens at the core.
impl<B: Branch + Drop, K: Keeper + Drop> Store<B, K> {
    /// Hears bytes that come, and tells what was taken, or why they are refused.
    pub fn frame<W: Wait>(
        &self,
        rt: &W,
        pass: &mut Pass,
        now: Millis,
        bytes: &[u8],
    ) -> Result<Result<Taken, Refusal>, StoreEnd>
        requires pass { IsOf self.now pass.old }
        requires moment { now ≤ greatest_millis }
        ensures pass { IsOf self.now pass.new }
        ensures called { IfOk result (λ answer.
            Called self.now pass.old (Frame now bytes.now) (taken_answer answer) pass.new) }
        ensures refused { IfErr result (λ end. Refused self.now pass.old end pass.new) }
    {
        let copy = copy_of(self.alloc, bytes)?;
        let (mut turn, page) = self.enter(rt, pass, CoreEvent::Frame { now, bytes: copy })?;
        let answer = turn.object.core.frame(now, bytes);
        self.finish(pass, turn, page);
        Ok(answer)
    }

    /// Hears a whole frame that was split off already, as `frame` hears its bytes.
    pub fn whole_frame<W: Wait>(
        &self,
        rt: &W,
        pass: &mut Pass,
        now: Millis,
        raw: &Raw<'_>,
        bytes: &[u8],
    ) -> Result<Result<Taken, Refusal>, StoreEnd>
        requires pass { IsOf self.now pass.old }
        requires moment { now ≤ greatest_millis }
        requires whole { SpellsRaw (raw_frame raw.now) bytes.now }
        ensures pass { IsOf self.now pass.new }
        ensures called { IfOk result (λ answer.
            Called self.now pass.old (Frame now bytes.now) (taken_answer answer) pass.new) }
        ensures refused { IfErr result (λ end. Refused self.now pass.old end pass.new) }
    {
        let copy = copy_of(self.alloc, bytes)?;
        let (mut turn, page) = self.enter(rt, pass, CoreEvent::Frame { now, bytes: copy })?;
        let answer = turn.object.core.whole_frame(now, raw, bytes);
        self.finish(pass, turn, page);
        Ok(answer)
    }

    /// Looks at the votes and lets the round go on. What is validated then is first saved with the keeper.
    pub fn timer<W: Wait>(
        &self,
        rt: &W,
        pass: &mut Pass,
        now: Millis,
    ) -> Result<TimerAnswer, StoreEnd>
        requires pass { IsOf self.now pass.old }
        requires moment { now ≤ greatest_millis }
        ensures pass { IsOf self.now pass.new }
        ensures called { IfOk result (λ beat. Called self.now pass.old (Timer now) (Beats beat) pass.new) }
        ensures refused { IfErr result (λ end. Refused self.now pass.old end pass.new) }
    {
        let (mut turn, mut page) = self.enter(rt, pass, CoreEvent::Timer { now })?;
        let beat = turn.object.timer(now);
        page.note(outcome::of_beat(&beat));
        self.finish(pass, turn, page);
        Ok(beat)
    }

    /// Hands a transaction in, which is pending from then on, or tells why it is refused.
    pub fn submit<W: Wait>(
        &self,
        rt: &W,
        pass: &mut Pass,
        now: Millis,
        tx: TxId,
    ) -> Result<Result<(), Refusal>, StoreEnd>
        requires pass { IsOf self.now pass.old }
        requires moment { now ≤ greatest_millis }
        ensures pass { IsOf self.now pass.new }
        ensures called { IfOk result (λ answer.
            Called self.now pass.old (Submit now tx) (done_answer answer) pass.new) }
        ensures refused { IfErr result (λ end. Refused self.now pass.old end pass.new) }
    {
        let (mut turn, page) = self.enter(rt, pass, CoreEvent::Submit { now, tx })?;
        let answer = turn.object.core.submit(now, tx);
        self.finish(pass, turn, page);
        Ok(answer)
    }

    /// Sets another list in force, or tells why it is refused.
    pub fn relist<W: Wait>(
        &self,
        rt: &W,
        pass: &mut Pass,
        now: Millis,
        list: List,
    ) -> Result<Result<(), Refusal>, StoreEnd>
        requires pass { IsOf self.now pass.old }
        requires moment { now ≤ greatest_millis }
        ensures pass { IsOf self.now pass.new }
        ensures called { IfOk result (λ answer.
            Called self.now pass.old (Relist now list) (done_answer answer) pass.new) }
        ensures refused { IfErr result (λ end. Refused self.now pass.old end pass.new) }
    {
        // Each list is valid.
        let _members = list.members();
        let event = CoreEvent::Relist {
            now,
            list: list.copy(),
        };
        let (mut turn, page) = self.enter(rt, pass, event)?;
        let answer = turn.object.core.relist(now, list);
        self.finish(pass, turn, page);
        Ok(answer)
    }

    /// Saves a sequence with the keeper and issues its validation, or tells why it is refused.
    pub fn issue<W: Wait>(
        &self,
        rt: &W,
        pass: &mut Pass,
        now: Millis,
        seq: Seq,
        id: LedgerId,
        full: bool,
    ) -> Result<Result<(), Refusal>, StoreEnd>
        requires pass { IsOf self.now pass.old }
        requires moment { now ≤ greatest_millis }
        ensures pass { IsOf self.now pass.new }
        ensures called { IfOk result (λ answer.
            Called self.now pass.old (Issue now seq id full) (done_answer answer) pass.new) }
        ensures refused { IfErr result (λ end. Refused self.now pass.old end pass.new) }
    {
        let event = CoreEvent::Issue { now, seq, id, full };
        let (mut turn, mut page) = self.enter(rt, pass, event)?;
        let answer = turn.object.issue(now, seq, id, full);
        page.note(outcome::of_issue(&answer));
        self.finish(pass, turn, page);
        Ok(answer)
    }

    /// Greets a peer, a link to which has opened, with the chain on which the round is. A peer is one of the core that
    /// the store was opened with.
    pub fn greet<W: Wait>(&self, rt: &W, pass: &mut Pass, member: NodeNo) -> Result<(), StoreEnd>
        requires pass { IsOf self.now pass.old }
        requires peer { IsSome (key_of (start_of self.now).node.keys member) }
        ensures pass { IsOf self.now pass.new }
        ensures called { IfOk result (λ _. Called self.now pass.old (Greet member) Done pass.new) }
        ensures refused { IfErr result (λ end. Refused self.now pass.old end pass.new) }
    {
        let (mut turn, page) = self.enter(rt, pass, CoreEvent::Greet { member })?;
        turn.object.core.greet(member);
        self.finish(pass, turn, page);
        Ok(())
    }

    /// Writes the frames of what waits for a peer into the room, as many as fit, and answers how many bytes they are.
    /// The rest of the room is as it was.
    pub fn drain<W: Wait>(
        &self,
        rt: &W,
        pass: &mut Pass,
        member: NodeNo,
        room: &mut [u8],
    ) -> Result<usize, StoreEnd>
        requires pass { IsOf self.now pass.old }
        requires peer { IsSome (key_of (start_of self.now).node.keys member) }
        requires room { longest_frame ≤ length room.old }
        ensures pass { IsOf self.now pass.new }
        ensures called { IfOk result (λ written. Drained self.now pass.old member written room.old room.new pass.new) }
        ensures refused { IfErr result (λ end. Refused self.now pass.old end pass.new) }
        ensures room { IfErr result (λ _. room.new ≡ room.old) }
    {
        let event = CoreEvent::Drain {
            member,
            room: room.len(),
        };
        let (mut turn, page) = self.enter(rt, pass, event)?;
        let written = turn.object.core.drain(member, room);
        self.finish(pass, turn, page);
        Ok(written)
    }

    /// Takes out the oldest reports that no one has taken, as many as the room holds, and answers how many. The rest of
    /// the room is as it was. A store that hands entries on does so here.
    pub fn reports<W: Wait>(
        &self,
        rt: &W,
        pass: &mut Pass,
        room: &mut [Report],
    ) -> Result<Handed, StoreEnd>
        requires pass { IsOf self.now pass.old }
        ensures pass { IsOf self.now pass.new }
        ensures called { IfOk result (λ handed. HandedOut self.now pass.old handed.count room.old room.new pass.new) }
        ensures batch { IfOk result (λ handed. handed.batch ≡ handed_on (retention_of self.now) (known pass.new).seen) }
        ensures refused { IfErr result (λ end. Refused self.now pass.old end pass.new) }
        ensures room { IfErr result (λ _. room.new ≡ room.old) }
    {
        let event = CoreEvent::Reports { room: room.len() };
        let (mut turn, page) = self.enter(rt, pass, event)?;
        let count = turn.object.core.reports(room);
        let batch = self.finish(pass, turn, page);
        Ok(Handed { count, batch })
    }

    /// Takes out reports as `reports` does, and tells how the node is then. It is one turn, and its entry is that of
    /// `reports`: so who asks how the node is leaves no trace in the journal.
    pub fn reports_and_status<W: Wait>(
        &self,
        rt: &W,
        pass: &mut Pass,
        room: &mut [Report],
    ) -> Result<(Handed, NodeStatus), StoreEnd>
        requires pass { IsOf self.now pass.old }
        ensures pass { IsOf self.now pass.new }
        ensures called { IfOk result (λ taken. HandedOut self.now pass.old taken.0.count room.old room.new pass.new) }
        ensures batch { IfOk result (λ taken.
            taken.0.batch ≡ handed_on (retention_of self.now) (known pass.new).seen) }
        // It is how the core is after all that the pass has then seen.
        ensures status { IfOk result (λ taken. taken.1 ≡ status_of (core_seen self.now pass.new)) }
        ensures refused { IfErr result (λ end. Refused self.now pass.old end pass.new) }
        ensures room { IfErr result (λ _. room.new ≡ room.old) }
    {
        let event = CoreEvent::Reports { room: room.len() };
        let (mut turn, page) = self.enter(rt, pass, event)?;
        let count = turn.object.core.reports(room);
        let status = NodeStatus::of(&turn.object.core);
        let batch = self.finish(pass, turn, page);
        Ok((Handed { count, batch }, status))
    }

    /// Notes that the node is to stop: whoever runs it asks `stopped`.
    pub fn stop<W: Wait>(&self, rt: &W, pass: &mut Pass) -> Result<(), StoreEnd>
        requires pass { IsOf self.now pass.old }
        ensures pass { IsOf self.now pass.new }
        ensures called { IfOk result (λ _. Called self.now pass.old Stop Done pass.new) }
        ensures refused { IfErr result (λ end. Refused self.now pass.old end pass.new) }
    {
        let blank = self.page_of_stop(rt)?;
        let (mut turn, page) = self.enter_with(rt, pass, blank)?;
        turn.object.core.stop();
        self.finish(pass, turn, page);
        self.spares.tell();
        Ok(())
    }

    /// Whether the node is to stop.
    pub fn stopped<W: Wait>(&self, rt: &W, pass: &mut Pass) -> Result<bool, StoreEnd>
        requires pass { IsOf self.now pass.old }
        ensures pass { IsOf self.now pass.new }
        ensures called { IfOk result (λ stopped. Called self.now pass.old Stopped (Told stopped) pass.new) }
        ensures refused { IfErr result (λ end. Refused self.now pass.old end pass.new) }
    {
        let blank = self.page_of_question(rt)?;
        let (turn, page) = self.enter_with(rt, pass, blank)?;
        let stopped = turn.object.core.stopped();
        self.finish(pass, turn, page);
        Ok(stopped)
    }
}
