ghost use Rattle.std.specs.Prelude.{◌≡◌, ◌<◌, None, Some};
ghost use Rattle.xl_ledger.specs.Limits.{greatest_limit};

use crate::LedgerNo;
use std::marker::Model;

/// A ledger, or none, in four bytes: one more than the ledger's place, and 0 for none.
#[derive(Clone, Copy)]
pub(crate) struct Link {
    number: u32,
}

impl Model for Link {
    ghost use Rattle.std.specs.Prelude.{ℕ, Option, refl};
    ghost use Rattle.xl_ledger.specs.Links.{linked, number_of};

    ghost Value = { Option ℕ };

    ghost view = { λ a. linked a.number };

    ghost inverse = { λ o. record { number = number_of o } };
}

impl Link {
    pub(crate) fn none() -> Link
        ensures { result ≡ None }
    {
        Link { number: 0 }
    }

    pub(crate) fn to(ledger: LedgerNo) -> Link
        requires { ledger < greatest_limit }
        ensures { result ≡ Some ledger }
    {
        Link {
            number: ledger.place() as u32 + 1,
        }
    }

    pub(crate) fn ledger(self) -> Option<LedgerNo>
        ensures { result ≡ self }
    {
        if self.number == 0 {
            None
        } else {
            Some(LedgerNo::at(self.number - 1))
        }
    }
}
