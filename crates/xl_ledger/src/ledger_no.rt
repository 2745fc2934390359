ghost use Rattle.std.specs.Prelude.{◌≡◌};

use std::marker::Model;

/// A ledger of a registry: its place in the order in which ledgers were added. It names a ledger in that registry
/// alone.
#[derive(Clone, Copy, Debug, PartialEq, Eq, PartialOrd, Ord)]
pub struct LedgerNo {
    place: u32,
}

impl Model for LedgerNo {
    ghost use Rattle.std.specs.Prelude.{ℕ};

    ghost Value = { ℕ };

    ghost view = { λ a. a.place };

    ghost inverse = { λ n. record { place = n } };
}

impl LedgerNo {
    /// The root, which every registry has.
    pub fn root() -> LedgerNo
        ensures { result ≡ 0 }
    {
        LedgerNo { place: 0 }
    }

    pub(crate) fn at(place: u32) -> LedgerNo
        ensures { result ≡ place }
    {
        LedgerNo { place }
    }

    pub(crate) fn place(self) -> usize
        ensures { result ≡ self }
    {
        self.place as usize
    }
}
