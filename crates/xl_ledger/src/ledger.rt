use crate::link::Link;
use crate::{Header, LedgerNo};
use xl_base::LedgerId;

/// How many jumps a ledger has: this many bits have the numbers below the greatest limit.
pub(crate) const LEVELS: usize = 18;

/// A ledger as it is stored.
#[derive(Clone, Copy)]
pub(crate) struct Ledger {
    pub(crate) header: Header,
    pub(crate) id: LedgerId,
    /// Its ancestors 1, 2, 4 and so on places up; the root if the chain ends below.
    pub(crate) jumps: [LedgerNo; LEVELS],
    /// The one before it whose id has the same bucket.
    pub(crate) before: Link,
}
