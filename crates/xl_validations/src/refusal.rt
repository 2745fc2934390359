ghost use Rattle.std.specs.Prelude.{◌≡◌};
ghost use Rattle.xl_validations.specs.Codes.{code_of};

use xl_base::{LedgerId, Secs, Seq};

/// Why a validation isn't taken, tested in this order. The rows then stay as they were.
#[derive(Clone, Copy, PartialEq, Eq)]
pub enum ValRefusal {
    /// It isn't current: the second now, and the second at which it was signed.
    Stale(Secs, Secs),
    /// The row holds a validation of this sequence and this id.
    Repeat(LedgerId),
    /// The row holds a validation of this sequence and another id, which is given.
    Conflict(LedgerId),
    /// The sequence is at most the greatest one taken from the member, which is given.
    OldSeq(Seq),
}

impl ValRefusal {
    /// The number of the refusal.
    pub fn code(self) -> u32
        ensures { result ≡ code_of self }
    {
        match self {
            ValRefusal::Stale(..) => 20,
            ValRefusal::Repeat(_) => 21,
            ValRefusal::Conflict(_) => 22,
            ValRefusal::OldSeq(_) => 23,
        }
    }
}
