ghost use Rattle.std.specs.Prelude.{◌≡◌, ◌+◌, ◌<◌, ◌^◌};

use xl_base::{LedgerId, Secs};
use xl_ledger::{Header, root_header};

/// A ledger that a schedule names: its header, and the header's id. The root has an id that is no hash.
#[derive(Clone, Copy, PartialEq, Eq)]
pub struct Ledger {
    pub id: LedgerId,
    pub header: Header,
}

impl Ledger {
    ghost use Rattle.xl_sched.specs.Ledgers.{root_ledger, header_after};

    pub fn root() -> Ledger
        ensures { result ≡ root_ledger }
    {
        Ledger {
            id: LedgerId([0; 32]),
            header: root_header(),
        }
    }

    /// The header of a ledger that follows this one, closes at this second, and is like the root in all else.
    pub fn header_after(&self, close: Secs) -> Header
        requires { self.now.header.seq + 1 < 2 ^ 32 }
        ensures { result ≡ header_after self.now close }
    {
        Header {
            seq: self.header.seq + 1,
            parent: self.id,
            parent_close: self.header.close,
            close,
            ..root_header()
        }
    }
}
