ghost use Rattle.std.specs.Prelude.{◌≡◌, ◌↔◌, ◌<◌, ◌≤◌, Some, Ok, Err, ℕ, None};
ghost use Rattle.xl_base.specs.Moments.{greatest_millis};
ghost use Rattle.xl_core.specs.Node.{Issue, happens, asks_for, issuing_reply, own_issued_reply, IsOff, told_by};
ghost use Rattle.xl_core.specs.declared.refusal.Refusal.TheVariants.{NotAfter, IssuingOff};
ghost use Rattle.xl_core.specs.Replies.{hear_reply, issue_reply, save_in, was_kept};
ghost use Rattle.xl_core.specs.Keeping.{AsksSave, CountsFault, Holds, IsAsked, Saves};

use super::Node;
use crate::taken::{Heard, UNHEARD};
use crate::{OwnValidation, Refusal, Report};
use xl_base::{LedgerId, Millis, Seq, secs_of};
use xl_io::Keeper;
use xl_ledger::Branch;
use xl_wire::Validation;

/// The report of what was heard, if it gave one.
fn report_in(heard: &Result<Heard, Refusal>) -> Option<Report>
    ensures { (n : _) → result ≡ (hear_reply heard.now n).report }
{
    match heard {
        Ok(heard) => heard.report,
        Err(_) => None,
    }
}

impl<B: Branch + Drop> Node<B> {
    /// Saves a sequence and issues its validation, signed in the second of the node's time. Only after the save does
    /// the node's own row take the validation, if the node stands on its list; that may give a report.
    ///
    /// First the time is set, and rows expire. Refused as not after the last saved sequence; for a save that failed
    /// since the node opened; or because the save fails now, in this order. After a save that failed the node issues
    /// nothing until it is opened anew, and the keeper may hold the former number or the asked one.
    pub fn issue<K: Keeper>(
        &mut self,
        now: Millis,
        seq: Seq,
        id: LedgerId,
        full: bool,
        keeper: &mut K,
    ) -> Result<OwnValidation, Refusal>
        requires moment { now ≤ greatest_millis }
        ensures exact { issue_reply result self.new ≡ happens self.old (Issue now seq id full) (save_in result) }
        ensures not_after { (result ≡ Err (NotAfter self.old.kept)) ↔ (seq ≤ self.old.kept) }
        ensures off { (failed : ℕ) → (result ≡ Err (IssuingOff failed)) ↔ IsOff self.old seq failed }
        ensures fault { CountsFault result (K.faults keeper.old) (K.faults keeper.new) }
        // At most one save is asked, of a number above the kept one.
        ensures held { Holds (asks_for self.old seq) (was_kept result) (K.held keeper.old) (K.held keeper.new) }
        ensures saves { AsksSave (asks_for self.old seq) (K.saves keeper.old) (K.saves keeper.new) }
        ensures keeper { Saves K.save_gives (asks_for self.old seq) (was_kept result) keeper.old keeper.new }
        ensures later { K.faults keeper.old ≤ K.faults keeper.new }
    {
        self.advance(now);
        if seq <= self.kept {
            return Err(Refusal::NotAfter(self.kept));
        }
        if let Some(failed) = self.failed_save {
            return Err(Refusal::IssuingOff(failed));
        }
        if keeper.save(seq).is_err() {
            self.failed_save = Some(seq);
            return Err(Refusal::KeepFault(keeper.faults()));
        }
        Ok(self.issue_saved(seq, id, full))
    }

    /// Issues as `issue` does, at the node's present time.
    pub(super) fn issue_now<K: Keeper>(
        &mut self,
        seq: Seq,
        id: LedgerId,
        full: bool,
        keeper: &mut K,
    ) -> Result<OwnValidation, Refusal>
        ensures exact { issue_reply result self.new ≡ issuing_reply self.old seq id full (save_in result) }
        ensures fault { CountsFault result (K.faults keeper.old) (K.faults keeper.new) }
        ensures asks { IsAsked K.held K.saves K.faults K.save_gives
            (asks_for self.old seq) (was_kept result) keeper.old keeper.new }
    {
        let now = self.time;
        self.issue(now, seq, id, full, keeper)
    }

    /// Issues the validation of a sequence that was saved. The own row takes it, if the node stands on its list.
    fn issue_saved(&mut self, seq: Seq, id: LedgerId, full: bool) -> OwnValidation
        ensures { issue_reply (Ok result) self.new ≡ own_issued_reply self.old seq id full }
    {
        let validation = Validation {
            id,
            seq,
            signed: secs_of(self.time),
            full,
            validated: self.told(),
        };
        self.kept = seq;
        let me = self.me;
        if !self.list.has(me) {
            return OwnValidation {
                validation,
                report: None,
            };
        }
        let mut heard = UNHEARD;
        self.take(me, &validation, &mut heard);
        OwnValidation {
            validation,
            report: report_in(&heard),
        }
    }

    /// What its validations tell of the ledger that it last reported: nothing in version 1.
    fn told(&self) -> Option<LedgerId>
        ensures { result ≡ told_by self.now }
    {
        if self.speak == 2 {
            Some(match self.last.report {
                Some(report) => report.id,
                None => LedgerId([0; 32]),
            })
        } else {
            None
        }
    }
}
