// Who is counted at a node's report.
ghost use Rattle.std.specs.Prelude.{◌≡◌, ◌≤◌, length, All, IfOk};
ghost use Rattle.xl_voting.specs.Reports.{close_of, counted_by};

use std::alloc::Global;
use xl_base::{LedgerId, NodeNo, OutOfMemory, Secs, Seq};
use xl_core::Core;
use xl_trie::Trie;

/// The members of a node's list that it heard validate a ledger.
pub fn counted_by(
    alloc: Global,
    core: &Core<Trie>,
    seq: Seq,
    id: &LedgerId,
) -> Result<Vec<NodeNo>, OutOfMemory>
    ensures value { IfOk result (λ counted. counted.items ≡ counted_by core.now seq id.now) }
    ensures few { IfOk result (λ counted. length counted.items ≤ 64) }
    ensures members { IfOk result (λ counted. All (λ m. (1 ≤ m) × (m ≤ 64)) counted.items) }
{
    let members = core.list().members();
    let mut counted = Vec::with_capacity(alloc, members.len())?;
    for &member in members {
        if core.holds(member, seq, id) {
            counted.push(member)?;
        }
    }
    Ok(counted)
}

/// When a ledger that a node knows closed, or None if the node doesn't know it.
pub fn close_of(core: &Core<Trie>, id: &LedgerId) -> Option<Secs>
    ensures { result ≡ close_of core.now id.now }
{
    let registry = core.registry();
    let ledger = registry.find(id)?;
    Some(registry.walk().header(ledger).close)
}
