ghost use Rattle.std.specs.Prelude.{◌≡◌, ◌==◌, ◌≤◌, length, count_by};
ghost use Rattle.xl_flags.specs.Kept.{fee_voted, kept_votes, voted_or};
ghost use Rattle.xl_flags.specs.Votes.{elected_fee as elected_of, wins as wins_of};
ghost use Rattle.xl_firsts.specs.Firsts.{or_one};

use crate::amendment::place_of;
use xl_base::{MOST_MEMBERS, NodeNo};

/// The fee if nothing was decided yet.
pub(crate) const FIRST_FEE: u32 = 10;

/// The fee that most of the counted members vote for, the lowest on a tie; without counted members it stays. A member
/// without a vote votes for the fee in force.
pub(crate) fn elected(votes: &[Option<u32>; MOST_MEMBERS], counted: &[NodeNo], current: u32) -> u32
    requires { length counted.now ≤ 64 }
    ensures { result ≡ elected_of (kept_votes votes.now counted.now current) current }
{
    let mut best = None;
    for &member in counted {
        let fee = fee_vote(votes, member, current);
        best = Some(winner(best, fee, votes, counted, current));
    }
    best.unwrap_or(current)
}

/// The fee that wins of one and the one that won before it.
fn winner(
    best: Option<u32>,
    fee: u32,
    votes: &[Option<u32>; MOST_MEMBERS],
    counted: &[NodeNo],
    current: u32,
) -> u32
    requires { length counted.now ≤ 64 }
    ensures { result ≡ or_one (wins_of (kept_votes votes.now counted.now current)) best fee }
{
    match best {
        Some(best) => {
            if wins(fee, best, votes, counted, current) {
                fee
            } else {
                best
            }
        }
        None => fee,
    }
}

/// Whether a fee has more votes than another, or as many and is lower.
fn wins(
    fee: u32,
    other: u32,
    votes: &[Option<u32>; MOST_MEMBERS],
    counted: &[NodeNo],
    current: u32,
) -> bool
    requires { length counted.now ≤ 64 }
    ensures { result ≡ wins_of (kept_votes votes.now counted.now current) fee other }
{
    let for_fee = count_for(fee, votes, counted, current);
    let for_other = count_for(other, votes, counted, current);
    for_fee > for_other || for_fee == for_other && fee < other
}

/// How many of the counted members vote for a fee.
fn count_for(
    fee: u32,
    votes: &[Option<u32>; MOST_MEMBERS],
    counted: &[NodeNo],
    current: u32,
) -> usize
    ensures { result ≡ count_by (λ u. u == fee) (kept_votes votes.now counted.now current) }
{
    counted
        .iter()
        .filter(|&&member| fee_vote(votes, member, current) == fee)
        .count()
}

fn fee_vote(votes: &[Option<u32>; MOST_MEMBERS], member: NodeNo, current: u32) -> u32
    ensures { result ≡ voted_or current (fee_voted votes.now member) }
{
    match votes[place_of(member)] {
        Some(fee) => fee,
        None => current,
    }
}
