ghost use Rattle.std.specs.Prelude.{◌≡◌, IsTrue};
ghost use Rattle.xl_base.specs.Sets.{is_below as is_below_of, IsRising, IsSet};

use xl_base::{MOST_IDS, TxId};

fn is_below(a: &TxId, b: &TxId) -> bool
    ensures { result ≡ is_below_of a.now b.now }
{
    a < b
}

/// Whether each id is below the next.
fn rises(ids: &[TxId]) -> bool
    ensures { IsTrue result → IsRising ids.now }
{
    for place in 1..ids.len() {
        if !is_below(&ids[place - 1], &ids[place]) {
            return false;
        }
    }
    true
}

/// Whether these ids are a set.
pub fn is_set(ids: &[TxId]) -> bool
    ensures { IsTrue result → IsSet ids.now }
{
    ids.len() <= MOST_IDS && rises(ids)
}
