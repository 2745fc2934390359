ghost use Rattle.std.specs.Prelude.{◌≡◌};
ghost use Rattle.xl_ledger.specs.Codes.{code_of};

use xl_base::{LedgerId, Seq};

/// Why a header isn't added. The causes are tested in this order, and the first that holds is answered.
#[derive(Clone, Copy, Debug, PartialEq, Eq)]
pub enum AddRefusal {
    /// A ledger of this id is known.
    Known(LedgerId),
    /// No ledger of this id, which the header names as its parent, is known.
    Orphan(LedgerId),
    /// The sequence isn't that of the parent plus one.
    WrongSeq { parent: Seq, own: Seq },
    /// There are as many ledgers as this limit.
    Full(u32),
}

impl AddRefusal {
    /// The number of the refusal.
    pub fn code(self) -> u32
        ensures { result ≡ code_of self }
    {
        match self {
            AddRefusal::Known(_) => 16,
            AddRefusal::Orphan(_) => 17,
            AddRefusal::WrongSeq { .. } => 18,
            AddRefusal::Full(_) => 19,
        }
    }
}
