ghost use Rattle.std.specs.Prelude.{◌≡◌, ◌+◌, ◌<◌, ◌≤◌, length, Some, IfSome};
ghost use Rattle.xl_ledger.specs.Chains.{AreLedgers};
ghost use Rattle.xl_ledger.specs.Votes.{AreKnown, is_on_chain, branch_of, uncommitted, next_of, prefer};
ghost use Rattle.xl_ledger.specs.Walks.{GoesOn};
ghost use Rattle.xl_recount.specs.Children.{children_of};

use crate::children::{best_child, fill, margin};
use xl_base::Seq;
use xl_ledger::{LedgerNo, Vote, Walk};

/// Whether a ledger stands on the chain of another.
fn is_on_chain(walk: &mut Walk<'_>, ledger: LedgerNo, of: LedgerNo) -> bool
    requires ledger { ledger < length walk.old.ledgers.headers }
    requires of { of < length walk.old.ledgers.headers }
    ensures value { result ≡ is_on_chain walk.old.ledgers.headers ledger of }
    ensures goes_on { GoesOn walk.old walk.new }
{
    let seq = walk.seq_of(ledger);
    if walk.seq_of(of) < seq {
        return false;
    }
    walk.ancestor(of, seq) == ledger
}

/// How many votes are for a ledger or one below it.
pub(crate) fn branch(votes: &[Vote], walk: &mut Walk<'_>, ledger: LedgerNo) -> usize
    requires ledger { ledger < length walk.old.ledgers.headers }
    requires known { AreKnown walk.old.ledgers.headers votes.now }
    ensures value { result ≡ branch_of walk.old.ledgers.headers votes.now ledger }
    ensures few { result ≤ length votes.now }
{
    let mut count = 0;
    for vote in votes {
        if is_on_chain(walk, ledger, vote.ledger) {
            count += 1;
        }
    }
    count
}

/// How many votes are for an earlier sequence than this, or than the largest issued.
fn uncommitted(votes: &[Vote], walk: &Walk<'_>, seq: Seq, largest: Seq) -> usize
    requires { AreKnown walk.now.ledgers.headers votes.now }
    ensures { result ≡ uncommitted walk.now.ledgers.headers votes.now seq largest }
{
    let mut count = 0;
    for vote in votes {
        if walk.seq_of(vote.ledger) < seq.max(largest) {
            count += 1;
        }
    }
    count
}

/// The child to go on to, if there is one.
fn next(votes: &[Vote], walk: &mut Walk<'_>, from: LedgerNo, largest: Seq) -> Option<LedgerNo>
    requires from { from < length walk.old.ledgers.headers }
    requires ledgers { AreLedgers walk.old.ledgers.headers }
    requires known { AreKnown walk.old.ledgers.headers votes.now }
    requires few { length votes.now ≤ 64 }
    ensures value { result ≡ next_of walk.old.ledgers.headers votes.now largest from }
    ensures known { IfSome result (λ c. c < length walk.old.ledgers.headers) }
    ensures goes_on { GoesOn walk.old walk.new }
{
    let mut places = [None; 64];
    fill(votes, walk, from, &mut places);
    pick(votes, walk, &places[..votes.len()], from, largest)
}

/// The best child, where its margin exceeds the uncommitted votes.
fn pick(
    votes: &[Vote],
    walk: &Walk<'_>,
    children: &[Option<LedgerNo>],
    from: LedgerNo,
    largest: Seq,
) -> Option<LedgerNo>
    requires ledgers { AreLedgers walk.now.ledgers.headers }
    requires from { from < length walk.now.ledgers.headers }
    requires known { AreKnown walk.now.ledgers.headers votes.now }
    requires few { length votes.now ≤ 64 }
    requires children { children.now ≡ children_of walk.now.ledgers.headers votes.now from }
    ensures value { result ≡ next_of walk.now.ledgers.headers votes.now largest from }
    ensures known { IfSome result (λ c. c < length walk.now.ledgers.headers) }
{
    let Some(best) = best_child(walk, children, None) else {
        return None
    };
    let second = best_child(walk, children, Some(best));
    let uncommitted = uncommitted(votes, walk, walk.seq_of(best), largest);
    if margin(walk, children, best, second) > uncommitted {
        Some(best)
    } else {
        None
    }
}

/// The ledger that the votes prefer, from the root down.
pub(crate) fn prefer(votes: &[Vote], walk: &mut Walk<'_>, largest: Seq) -> LedgerNo
    requires known { AreKnown walk.old.ledgers.headers votes.now }
    requires few { length votes.now ≤ 64 }
    ensures value { result ≡ prefer walk.old.ledgers.headers votes.now largest (length walk.old.ledgers.headers) 0 }
    ensures goes_on { GoesOn walk.old walk.new }
{
    let mut at = LedgerNo::root();
    // No chain is longer than the ledgers are many.
    for _ in 0..walk.len() {
        match next(votes, walk, at, largest) {
            Some(child) => at = child,
            None => return at,
        }
    }
    at
}
