ghost use Rattle.std.specs.Prelude.{◌≡◌, OnOk, OnErr};
ghost use Rattle.std.specs.Result.{result_err};
ghost use Rattle.xl_validations.specs.Rows.{
  is_current,
  empty_row,
  refusal,
  refusal_by_current,
  refusal_by_largest,
  with_validation,
  row_at,
  is_expired,
  is_full_of,
  is_of,
  names,
};

use crate::ValRefusal;
use xl_base::{FUTURE_SECS, LedgerId, NodeNo, PAST_SECS, Secs, Seq};
use xl_wire::Validation;

/// A member's row.
#[derive(Clone, Copy, PartialEq, Eq)]
pub struct Row {
    pub member: NodeNo,
    /// The greatest sequence taken since the node opened, 0 at first.
    pub largest: Seq,
    /// The validation taken last, until it expires.
    pub current: Option<Validation>,
}

/// Whether a validation is current at a second.
fn is_current_at(v: &Validation, now: Secs) -> bool
    ensures { result ≡ is_current now v.now }
{
    now.saturating_sub(PAST_SECS) < v.signed
        && u64::from(v.signed) < u64::from(now) + u64::from(FUTURE_SECS)
}

impl Row {
    /// The row of a member from whom nothing was taken.
    pub fn empty(member: NodeNo) -> Row
        ensures { result ≡ empty_row member }
    {
        Row {
            member,
            largest: 0,
            current: None,
        }
    }

    /// Why the row doesn't take the validation at a second, or `None` if it does.
    pub fn refusal(&self, v: &Validation, now: Secs) -> Option<ValRefusal>
        ensures { result ≡ refusal self.now now v.now }
    {
        if is_current_at(v, now) {
            self.refusal_of_current(v)
        } else {
            Some(ValRefusal::Stale(now, v.signed))
        }
    }

    fn refusal_of_current(&self, v: &Validation) -> Option<ValRefusal>
        ensures { result ≡ refusal_by_current self.now v.now self.now.current }
    {
        match &self.current {
            Some(kept) if kept.seq == v.seq => Some(if kept.id == v.id {
                ValRefusal::Repeat(kept.id)
            } else {
                ValRefusal::Conflict(kept.id)
            }),
            _ => self.refusal_by_sequence(v),
        }
    }

    fn refusal_by_sequence(&self, v: &Validation) -> Option<ValRefusal>
        ensures { result ≡ refusal_by_largest self.now v.now }
    {
        if v.seq <= self.largest {
            Some(ValRefusal::OldSeq(self.largest))
        } else {
            None
        }
    }

    /// Takes a validation at a second, which becomes the current one, or says why not and stays.
    pub fn take(&mut self, v: &Validation, now: Secs) -> Result<(), ValRefusal>
        ensures answer { result_err result ≡ refusal self.old now v.now }
        ensures taken { OnOk result (self.new ≡ with_validation v.now self.old) }
        ensures refused { OnErr result (self.new ≡ self.old) }
    {
        match self.refusal(v, now) {
            Some(why) => Err(why),
            None => {
                self.largest = v.seq;
                self.current = Some(*v);
                Ok(())
            }
        }
    }

    /// Whether the row's validation is no longer current at a second.
    pub fn is_expired(&self, now: Secs) -> bool
        ensures { result ≡ is_expired now self.now.current }
    {
        match &self.current {
            Some(v) => !is_current_at(v, now),
            None => false,
        }
    }

    /// Removes the validation if it is no longer current. The greatest sequence stays.
    pub fn expire(&mut self, now: Secs)
        ensures { self.new ≡ row_at now self.old }
    {
        self.current = self.current.filter(|v| is_current_at(v, now));
    }

    /// Whether the row holds a full validation of this sequence and id.
    pub fn is_full(&self, seq: Seq, id: &LedgerId) -> bool
        ensures { result ≡ is_full_of seq id.now self.now.current }
    {
        match &self.current {
            Some(v) => v.full && v.seq == seq && v.id == *id,
            None => false,
        }
    }

    /// Whether the row's validation, full or partial, is of this sequence and id.
    pub fn is_of(&self, seq: Seq, id: &LedgerId) -> bool
        ensures { result ≡ is_of seq id.now self.now.current }
    {
        match &self.current {
            Some(v) => v.seq == seq && v.id == *id,
            None => false,
        }
    }

    /// Whether the row's validation, full or partial, names this id.
    pub fn is_for(&self, id: &LedgerId) -> bool
        ensures { result ≡ names id.now self.now.current }
    {
        match &self.current {
            Some(v) => v.id == *id,
            None => false,
        }
    }
}
