// Sets of transactions, by their ids.
ghost use Rattle.std.specs.Prelude.{◌≡◌, ◌⊎◌, Ok, Err, None, IfOk, MatchResult};
ghost use Rattle.xl_base.specs.Sets.{IsSet};
ghost use Rattle.xl_sched.specs.Refusals.{GivenMemory};
ghost use Rattle.xl_sched.specs.Tokens.{entries};
ghost use Rattle.xl_sched.specs.TxSets.{rises, risen_id_of, risen_ids_of, tx_set_of};
ghost use Rattle.xl_sched.specs.declared.refusal.SchedRefusal.TheVariants.{OutOfMemory};

use crate::fault::{Cause, LineFault};
use crate::names::Names;
use std::alloc::Global;
use xl_base::{MOST_IDS, TxId, TxIds};

/// Ids that are joined by commas and rise strictly, at most 256, or `-` for none. The first entry that is no id or
/// doesn't rise is refused, and the whole token if they are too many.
pub fn tx_set<'a>(alloc: Global, names: &Names, token: &'a [u8]) -> Result<TxIds, LineFault<'a>>
    ensures value { GivenMemory result (tx_set_of names.now token.now) }
    ensures set { IfOk result IsSet }
{
    if token == b"-".as_slice() {
        return Ok(TxIds::from_vec(Vec::new(alloc)));
    }
    let ids = risen_ids(alloc, names, token)?;
    if ids.len() <= MOST_IDS {
        Ok(TxIds::from_vec(ids))
    } else {
        Err(LineFault::with_text(Cause::Id, token))
    }
}

/// The ids of the entries, or the first entry that is none or doesn't rise.
fn risen_ids<'a>(alloc: Global, names: &Names, token: &'a [u8]) -> Result<Vec<TxId>, LineFault<'a>>
    ensures { MatchResult result
        (λ ids. risen_ids_of names.now None (entries token.now) ≡ Ok ids.items)
        (λ fault. (fault ≡ OutOfMemory) ⊎ (risen_ids_of names.now None (entries token.now) ≡ Err fault)) }
{
    let mut ids = Vec::new(alloc);
    let mut before = None;
    for entry in token.split(|&b| b == b',') {
        let id = risen_id(names, before, entry)?;
        ids.push(id)?;
        before = Some(id);
    }
    Ok(ids)
}

/// The id of an entry, if it rises.
fn risen_id<'a>(names: &Names, before: Option<TxId>, entry: &'a [u8]) -> Result<TxId, LineFault<'a>>
    ensures { result ≡ risen_id_of names.now before entry.now }
{
    let id = names.tx_id(entry)?;
    if rises(before, id) {
        Ok(id)
    } else {
        Err(LineFault::with_text(Cause::Id, entry))
    }
}

fn rises(before: Option<TxId>, id: TxId) -> bool
    ensures { result ≡ rises before id }
{
    match before {
        None => true,
        Some(before) => before < id,
    }
}
