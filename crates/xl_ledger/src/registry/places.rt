use super::Registry;
use crate::LedgerNo;

impl Registry {
    ghost use Rattle.std.specs.Prelude.{◌≡◌, ◌<◌, length};

    /// The ledger of a place, in the order in which ledgers were added; the root's is 0.
    pub fn ledger_at(&self, place: u32) -> LedgerNo
        requires known { place < length self.now.headers }
        ensures { result ≡ place }
    {
        LedgerNo::at(place)
    }
}
