ghost use Rattle.std.specs.Prelude.{◌≡◌, ◌+◌, ◌<◌, ◌≤◌, ℕ, List, [], ◌∷◌, ◌++◌, length, take, All, Option, IfSome};
ghost use Rattle.std.specs.Ordering.{is_gt};
ghost use Rattle.xl_ledger.specs.Chains.{AreLedgers};
ghost use Rattle.xl_ledger.specs.Votes.{AreKnown, follows};
ghost use Rattle.xl_ledger.specs.Walks.{GoesOn};
ghost use Rattle.xl_recount.specs.Children.{towards, children_of, votes_for, child_rank, Leads, AreChildren, margin_of};

use xl_ledger::{LedgerNo, Vote, Walk};

/// The child of a ledger that stands on the chain of another, if there is one.
fn towards(walk: &mut Walk<'_>, from: LedgerNo, to: LedgerNo) -> Option<LedgerNo>
    requires from { from < length walk.old.ledgers.headers }
    requires to { to < length walk.old.ledgers.headers }
    ensures value { result ≡ towards walk.old.ledgers.headers from to }
    ensures goes_on { GoesOn walk.old walk.new }
{
    let seq = walk.seq_of(from);
    if walk.seq_of(to) <= seq {
        return None;
    }
    if walk.ancestor(to, seq) != from {
        return None;
    }
    Some(walk.ancestor(to, seq + 1))
}

/// How many votes are for a child, or for a ledger below it.
pub(crate) fn votes_for(children: &[Option<LedgerNo>], child: LedgerNo) -> usize
    ensures { result ≡ votes_for children.now child }
{
    children.iter().filter(|c| **c == Some(child)).count()
}

/// The children that the votes are for, or for ledgers below them, at the front of the places.
pub(crate) fn fill(
    votes: &[Vote],
    walk: &mut Walk<'_>,
    from: LedgerNo,
    places: &mut [Option<LedgerNo>],
)
    requires from { from < length walk.old.ledgers.headers }
    requires known { AreKnown walk.old.ledgers.headers votes.now }
    requires room { length votes.now ≤ length places.old }
    ensures filled { take (length votes.now) places.new ≡ children_of walk.old.ledgers.headers votes.now from }
    ensures goes_on { GoesOn walk.old walk.new }
{
    for i in 0..votes.len() {
        places[i] = towards(walk, from, votes[i].ledger);
    }
}

/// Whether a child ranks above another: it has more votes, or as many and the greater id.
fn ranks_above(walk: &Walk<'_>, children: &[Option<LedgerNo>], a: LedgerNo, b: LedgerNo) -> bool
    requires a { a < length walk.now.ledgers.headers }
    requires b { b < length walk.now.ledgers.headers }
    ensures { result ≡ is_gt (child_rank walk.now.ledgers.headers children.now a b) }
{
    let by_votes = votes_for(children, a).cmp(&votes_for(children, b));
    by_votes.then(walk.id_at(a).cmp(&walk.id_at(b))).is_gt()
}

fn is_child(child: &Option<LedgerNo>, ledger: LedgerNo) -> bool
    ensures { result ≡ follows child.now ledger }
{
    match child {
        Some(child) => *child == ledger,
        None => false,
    }
}

/// The best so far, if one more vote is counted.
fn better(
    walk: &Walk<'_>,
    children: &[Option<LedgerNo>],
    out: &Option<LedgerNo>,
    best: Option<LedgerNo>,
    child: Option<LedgerNo>,
) -> Option<LedgerNo>
    requires ledgers { AreLedgers walk.now.ledgers.headers }
    requires best { IfSome best (λ b. b < length walk.now.ledgers.headers) }
    requires child { IfSome child (λ c. c < length walk.now.ledgers.headers) }
    ensures leads { (some : List (Option ℕ)) → Leads walk.now.ledgers.headers children.now some out.now best
        → Leads walk.now.ledgers.headers children.now (some ++ child ∷ []) out.now result }
    ensures known { IfSome result (λ b. b < length walk.now.ledgers.headers) }
{
    let Some(new) = child else { return best };
    if is_child(out, new) {
        return best;
    }
    let Some(old) = best else { return child };
    if ranks_above(walk, children, new, old) {
        child
    } else {
        best
    }
}

/// The child that ranks above each other, except the one that is left out.
pub(crate) fn best_child(
    walk: &Walk<'_>,
    children: &[Option<LedgerNo>],
    out: Option<LedgerNo>,
) -> Option<LedgerNo>
    requires ledgers { AreLedgers walk.now.ledgers.headers }
    requires known { AreChildren walk.now.ledgers.headers children.now }
    ensures leads { Leads walk.now.ledgers.headers children.now children.now out result }
    ensures known { IfSome result (λ b. b < length walk.now.ledgers.headers) }
{
    let mut best = None;
    for child in children {
        best = better(walk, children, &out, best, *child);
    }
    best
}

/// By how many votes the best is ahead of the second, with one more if it has the greater id.
pub(crate) fn margin(
    walk: &Walk<'_>,
    children: &[Option<LedgerNo>],
    best: LedgerNo,
    second: Option<LedgerNo>,
) -> usize
    requires best { best < length walk.now.ledgers.headers }
    requires second { IfSome second (λ b. b < length walk.now.ledgers.headers) }
    requires few { length children.now ≤ 64 }
    ensures { result ≡ margin_of walk.now.ledgers.headers children.now best second }
{
    let votes = votes_for(children, best);
    match second {
        None => votes,
        Some(second) => {
            let ahead = votes.saturating_sub(votes_for(children, second));
            let by_ids = walk.id_at(best).cmp(&walk.id_at(second));
            if by_ids.is_gt() { ahead + 1 } else { ahead }
        }
    }
}
