//! Members vote for the last ledgers of a chain, one each, and prefer one.
ghost use Rattle.std.specs.Prelude.{◌≡◌, ◌<◌, ◌≤◌, [], length, IfSome};

use std::alloc::Global;
use xl_base::NodeNo;
use xl_ledger::{Branch, GREATEST_LIMIT, Header, LedgerNo, Registry};

fn grow(registry: &mut Registry, count: u32) -> Option<LedgerNo>
    requires { 0 < length registry.old.headers }
    ensures { IfSome result (λ last. last < length registry.new.headers) }
{
    let mut last = LedgerNo::root();
    for _ in 0..count {
        let next = Header {
            seq: registry.seq_of(last) + 1,
            drops: 0,
            parent: registry.id_at(last),
            tx_hash: [0; 32],
            account_hash: [0; 32],
            parent_close: 0,
            close: 30,
            resolution: 30,
            flags: 0,
        };
        last = registry.add(&next).ok()?;
    }
    Some(last)
}

fn all_vote<B: Branch>(
    branch: &mut B,
    registry: &Registry,
    last: LedgerNo,
    members: u32,
    voting: u32,
)
    requires goes { B.goes_with branch.old registry.now.headers }
    requires known { last < length registry.now.headers }
    requires none { B.votes branch.old ≡ [] }
    requires room { B.room branch.old ≡ members }
    requires few { members ≤ 64 }
    requires within { voting ≤ members }
    ensures { B.goes_with branch.new registry.now.headers }
{
    for n in 0..voting {
        let Some(member) = NodeNo::new(n + 1) else {
            return
        };
        let seq = registry.seq_of(last).saturating_sub(members - 1 - n);
        let ledger = registry.walk().ancestor(last, seq);
        branch.vote(registry, member, ledger);
    }
}

/// Members vote, as many as are voting, and the ledger that they prefer is asked for.
pub fn run<B: Branch + Drop>(
    alloc: Global,
    members: u32,
    ledgers: u32,
    voting: u32,
    asks: bool,
) -> Option<LedgerNo>
    requires few { members ≤ 64 }
    requires within { voting ≤ members }
{
    let mut registry = Registry::open(alloc, GREATEST_LIMIT).ok()?;
    let last = grow(&mut registry, ledgers)?;
    registry.len();
    let mut branch = B::open(alloc, members).ok()?;
    all_vote(&mut branch, &registry, last, members, voting);
    if asks {
        branch.preferred(&mut registry.walk(), 0)
    } else {
        None
    }
}
