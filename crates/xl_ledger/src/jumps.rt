ghost use Rattle.std.specs.Prelude.{◌<◌, length};
ghost use Rattle.xl_ledger.specs.Jumps.{AreJumpsBelow};
ghost use Rattle.xl_ledger.specs.Tables.{headers_of, HaveJumps};

use crate::LedgerNo;
use crate::ledger::{LEVELS, Ledger};

/// The jumps of a ledger that follows this one. The first leads to this one, and each other as far again as the one
/// before, by the table of the ledger to which that leads.
pub(crate) fn jumps_below(ledgers: &[Ledger], parent: LedgerNo) -> [LedgerNo; LEVELS]
    requires jumps { HaveJumps ledgers.now }
    requires known { parent < length ledgers.now }
    ensures { AreJumpsBelow (headers_of ledgers.now) parent result }
{
    let mut jumps = [parent; LEVELS];
    let mut at = parent;
    for level in 1..LEVELS {
        let reached = &ledgers[at.place()];
        at = reached.jumps[level - 1];
        jumps[level] = at;
    }
    jumps
}
