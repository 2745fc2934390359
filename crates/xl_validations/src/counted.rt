ghost use Rattle.std.specs.Prelude.{◌≡◌, ◌+◌, ◌≤◌, ◌&&◌, ◌==◌, length, if◌then◌else◌};
ghost use Rattle.xl_base.specs.Ids.{same_id};
ghost use Rattle.xl_validations.specs.Rows.{count_full, is_full_of};
ghost use Rattle.xl_validations.specs.Stored.{IsCounted, IsCountedBut};

use crate::Row;
use xl_base::{LedgerId, Seq};
use xl_wire::Validation;

/// A sequence and an id, and how many rows hold a full validation of them.
#[derive(Clone, Copy)]
pub(crate) struct Counted {
    pub(crate) seq: Seq,
    pub(crate) id: LedgerId,
    pub(crate) count: u32,
}

/// How many rows hold a full validation of this sequence and id.
pub(crate) fn count_full_in(rows: &[Row], seq: Seq, id: &LedgerId) -> u32
    requires few { length rows.now ≤ 64 }
    ensures value { result ≡ count_full seq id.now rows.now }
    ensures most { result ≤ 64 }
{
    rows.iter().filter(|row| row.is_full(seq, id)).count() as u32
}

/// Counts the rows that hold a full validation of this sequence and id.
pub(crate) fn recount(rows: &[Row], seq: Seq, id: LedgerId) -> Counted
    requires few { length rows.now ≤ 64 }
    ensures { IsCounted rows.now result }
{
    let count = count_full_in(rows, seq, &id);
    Counted { seq, id, count }
}

impl Counted {
    /// Whether it is of this sequence and id.
    pub(crate) fn is_of(&self, seq: Seq, id: &LedgerId) -> bool
        ensures { result ≡ (seq == self.now.seq && same_id id.now self.now.id) }
    {
        seq == self.seq && *id == self.id
    }

    /// Whether a row is counted.
    pub(crate) fn has(&self, row: &Row) -> bool
        ensures { result ≡ is_full_of self.now.seq self.now.id row.now.current }
    {
        row.is_full(self.seq, &self.id)
    }

    /// The count once a row, counted before or not, has taken a validation: of that one, if it is full.
    pub(crate) fn after(&self, rows: &[Row], had: bool, v: &Validation) -> Counted
        requires few { length rows.now ≤ 64 }
        requires but { IsCountedBut rows.now v.now had self.now }
        ensures { IsCounted rows.now result }
    {
        if v.full && !self.is_of(v.seq, &v.id) {
            return recount(rows, v.seq, v.id);
        }
        Counted {
            seq: self.seq,
            id: self.id,
            count: self.count + u32::from(v.full) - u32::from(had),
        }
    }
}
