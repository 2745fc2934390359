// Lists of ids that rise, walked side by side.
ghost use Rattle.std.specs.Prelude.{◌≡◌, ◌≤◌, length};
ghost use Rattle.std.specs.List.{prefix_len};
ghost use Rattle.xl_base.specs.Sets.{is_below as is_below_of};
ghost use Rattle.xl_disputes.specs.Rows.{not_below as not_below_of, is_first as is_first_of};

use crate::index::is_below;
use xl_base::TxId;

/// How many ids at the front are below this one.
pub fn count_below(ids: &[TxId], tx: &TxId) -> usize
    ensures value { result ≡ prefix_len (λ id. is_below_of id tx.now) ids.now }
    ensures within { result ≤ length ids.now }
{
    ids.iter().take_while(|id| is_below(id, tx)).count()
}

/// The ids from the first on that isn't below this one.
pub fn not_below<'a>(ids: &'a [TxId], tx: &TxId) -> &'a [TxId]
    ensures { result.now ≡ not_below_of tx.now ids.now }
{
    &ids[count_below(ids, tx)..]
}

/// Whether the first of the ids is this one.
pub fn is_first(ids: &[TxId], tx: &TxId) -> bool
    ensures { result ≡ is_first_of tx.now ids.now }
{
    match ids.first() {
        Some(id) => id == tx,
        None => false,
    }
}
