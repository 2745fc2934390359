ghost use Rattle.std.specs.Prelude.{◌≡◌, ◌+◌, ◌-◌, ◌≤◌, ◌<◌, ◌/◌, ◌&&◌, ◌==◌, not, count_by, length, take, is_some, None, Some};
ghost use Rattle.xl_lists.specs.Lists.{is_on};
ghost use Rattle.xl_nunl.specs.Lists.{IsNegative, MayBeInForce, least_quorum as least_quorum_of, list_without, staying_members};
ghost use Rattle.xl_nunl.specs.Deciding.{
  score_at,
  is_better as is_better_of,
  is_worse as is_worse_of,
  hears_little as hears_little_of,
  leaving_member as leaving_of,
  joining_member as joining_of,
  candidates,
  without,
  left_of,
  joined_of,
  negative_after,
};
ghost use Rattle.xl_firsts.specs.Firsts.{first_by, or_one};

use xl_base::{GREATEST_NODE_NO, MOST_MEMBERS, NodeNo};
use xl_lists::{List, default_quorum};

/// A node whose own score is below this decides nothing.
const OWN_LEAST: u32 = 230;

/// A member comes back where its score is above this.
const BACK_ABOVE: u32 = 204;

/// A member is left out where its score is below this.
const OUT_BELOW: u32 = 128;

/// What a node decided at a flag ledger, and the list that is in force then.
#[derive(Drop)]
pub struct Decided {
    /// The member that is left out no longer.
    pub left: Option<NodeNo>,
    /// The member that is left out from now on.
    pub joined: Option<NodeNo>,
    pub list: List,
}

/// What a node decides that declared this list, leaves out these of its members, and has these scores, the first being
/// that of member 1.
pub fn decide(full: &List, negative: &[NodeNo], scores: &[u32; MOST_MEMBERS], me: NodeNo) -> Decided
    requires { IsNegative full.now.members negative.now }
    ensures left { result.left ≡ left_of full.now.members negative.now scores.now me }
    ensures joined { result.joined ≡ joined_of full.now.members negative.now scores.now me }
    ensures list { result.list ≡ list_without full.now.members (negative_after negative.now result.left result.joined) }
    // So what is left out may be handed in at the next flag ledger.
    ensures negative { IsNegative full.now.members (negative_after negative.now result.left result.joined) }
    ensures lawful { MayBeInForce full.now.members result.list }
{
    let (left, joined) = if hears_little(full, scores, me) {
        (None, None)
    } else {
        let left = leaving(negative, scores);
        let joined = joining(full, negative, &left, scores, me);
        (left, joined)
    };
    let list = in_force(full, negative, &left, &joined);
    Decided { left, joined, list }
}

/// Whether the node hears too little of itself.
fn hears_little(full: &List, scores: &[u32; MOST_MEMBERS], me: NodeNo) -> bool
    ensures { result ≡ hears_little_of full.now.members scores.now me }
{
    full.has(me) && score_of(scores, me) < OWN_LEAST
}

/// The member that comes back.
fn leaving(negative: &[NodeNo], scores: &[u32; MOST_MEMBERS]) -> Option<NodeNo>
    ensures { result ≡ leaving_of negative.now scores.now }
{
    let member = best(negative, scores)?;
    if score_of(scores, member) > BACK_ABOVE {
        Some(member)
    } else {
        None
    }
}

/// The member that is left out next, if one comes back.
fn joining(
    full: &List,
    negative: &[NodeNo],
    left: &Option<NodeNo>,
    scores: &[u32; MOST_MEMBERS],
    me: NodeNo,
) -> Option<NodeNo>
    requires { IsNegative full.now.members negative.now }
    ensures { result ≡ joining_of full.now.members (without negative.now left.now) scores.now me }
{
    let member = worst(full.members(), negative, left, me, scores)?;
    let out = count_without(negative, left);
    if score_of(scores, member) < OUT_BELOW && out < full.len() / 4 {
        Some(member)
    } else {
        None
    }
}

/// The best of some members.
fn best(members: &[NodeNo], scores: &[u32; MOST_MEMBERS]) -> Option<NodeNo>
    ensures { result ≡ first_by (is_better_of scores.now) members.now }
{
    let mut best = None;
    for &member in members {
        best = Some(better(best, member, scores));
    }
    best
}

/// The worst of the members that may be left out next.
fn worst(
    full: &[NodeNo],
    negative: &[NodeNo],
    left: &Option<NodeNo>,
    me: NodeNo,
    scores: &[u32; MOST_MEMBERS],
) -> Option<NodeNo>
    ensures { result ≡ first_by (is_worse_of scores.now) (candidates full.now (without negative.now left.now) me) }
{
    let mut worst = None;
    for &member in full {
        if may_join(negative, left, me, member) {
            worst = Some(worse(worst, member, scores));
        }
    }
    worst
}

/// The better of a member and the one that was best before it.
fn better(best: Option<NodeNo>, member: NodeNo, scores: &[u32; MOST_MEMBERS]) -> NodeNo
    ensures { result ≡ or_one (is_better_of scores.now) best member }
{
    match best {
        Some(best) => {
            if is_better(scores, member, best) {
                member
            } else {
                best
            }
        }
        None => member,
    }
}

/// The worse of a member and the one that was worst before it.
fn worse(worst: Option<NodeNo>, member: NodeNo, scores: &[u32; MOST_MEMBERS]) -> NodeNo
    ensures { result ≡ or_one (is_worse_of scores.now) worst member }
{
    match worst {
        Some(worst) => {
            if is_worse(scores, member, worst) {
                member
            } else {
                worst
            }
        }
        None => member,
    }
}

fn is_better(scores: &[u32; MOST_MEMBERS], a: NodeNo, b: NodeNo) -> bool
    ensures { result ≡ is_better_of scores.now a b }
{
    let a_score = score_of(scores, a);
    let b_score = score_of(scores, b);
    a_score > b_score || a_score == b_score && a < b
}

fn is_worse(scores: &[u32; MOST_MEMBERS], a: NodeNo, b: NodeNo) -> bool
    ensures { result ≡ is_worse_of scores.now a b }
{
    let a_score = score_of(scores, a);
    let b_score = score_of(scores, b);
    a_score < b_score || a_score == b_score && a < b
}

fn score_of(scores: &[u32; MOST_MEMBERS], member: NodeNo) -> u32
    ensures { result ≡ score_at scores.now member }
{
    scores[member.get() as usize - 1]
}

/// Whether a member may be left out next, if one comes back.
fn may_join(negative: &[NodeNo], left: &Option<NodeNo>, me: NodeNo, member: NodeNo) -> bool
    ensures { result ≡ (not (is_on (without negative.now left.now) member) && not (member == me)) }
{
    !is_left_out(negative, left, member) && member != me
}

/// Whether a member is left out, if one comes back.
fn is_left_out(negative: &[NodeNo], left: &Option<NodeNo>, member: NodeNo) -> bool
    ensures { result ≡ is_on (without negative.now left.now) member }
{
    match left {
        Some(left) => stands_apart(negative, *left, member),
        None => stands_among(negative, member),
    }
}

fn stands_apart(members: &[NodeNo], other: NodeNo, member: NodeNo) -> bool
    ensures { result ≡ (is_on members.now member && not (member == other)) }
{
    stands_among(members, member) && member != other
}

fn stands_among(members: &[NodeNo], member: NodeNo) -> bool
    ensures { result ≡ is_on members.now member }
{
    members.iter().any(|&k| member == k)
}

/// How many are left out, if one comes back.
fn count_without(negative: &[NodeNo], left: &Option<NodeNo>) -> u32
    requires { length negative.now ≤ 64 }
    ensures { result ≡ length (without negative.now left.now) }
{
    match left {
        Some(left) => count_others(negative, *left),
        None => negative.len() as u32,
    }
}

fn count_others(members: &[NodeNo], other: NodeNo) -> u32
    requires { length members.now ≤ 64 }
    ensures { result ≡ count_by (λ m. not (m == other)) members.now }
{
    members.iter().filter(|&&member| member != other).count() as u32
}

/// The list that is in force, where of those that were left out one comes back and one more is left out.
fn in_force(
    full: &List,
    negative: &[NodeNo],
    left: &Option<NodeNo>,
    joined: &Option<NodeNo>,
) -> List
    requires { IsNegative full.now.members (negative_after negative.now left.now joined.now) }
    ensures value { result ≡ list_without full.now.members (negative_after negative.now left.now joined.now) }
    ensures lawful { MayBeInForce full.now.members result }
{
    let mut members = [0; MOST_MEMBERS];
    let len = put_staying(&mut members, full, negative, left, joined);
    let quorum = default_quorum(len as u32).max(least_quorum(full.members().len() as u32));
    List::new(&members[..len], quorum).unwrap()
}

/// A quorum of a list of so many members has at least so many, whoever is left out.
fn least_quorum(members: u32) -> u32
    requires { members ≤ 64 }
    ensures { result ≡ least_quorum_of members }
{
    (3 * members).div_ceil(5)
}

/// Puts the members that stay into the front of the room, by rising number, and tells how many they are.
fn put_staying(
    room: &mut [u32; MOST_MEMBERS],
    full: &List,
    negative: &[NodeNo],
    left: &Option<NodeNo>,
    joined: &Option<NodeNo>,
) -> usize
    ensures within { result ≤ 64 }
    ensures put { take result room.new ≡ staying_members full.now.members (negative_after negative.now left.now joined.now) }
{
    let mut len = 0;
    for below in 0..GREATEST_NODE_NO {
        let member = NodeNo::new(below + 1).unwrap();
        if stays(full, negative, left, joined, member) {
            room[len] = below + 1;
            len += 1;
        }
    }
    len
}

/// Whether a member stays, if one comes back and one more is left out.
fn stays(
    full: &List,
    negative: &[NodeNo],
    left: &Option<NodeNo>,
    joined: &Option<NodeNo>,
    member: NodeNo,
) -> bool
    ensures { result ≡ (is_on full.now.members member
        && not (is_on (negative_after negative.now left.now joined.now) member)) }
{
    full.has(member) && !is_out_after(negative, left, joined, member)
}

/// Whether a member is left out, if one comes back and one more is left out.
fn is_out_after(
    negative: &[NodeNo],
    left: &Option<NodeNo>,
    joined: &Option<NodeNo>,
    member: NodeNo,
) -> bool
    ensures { result ≡ is_on (negative_after negative.now left.now joined.now) member }
{
    match joined {
        Some(joined) => is_left_out(negative, left, member) || member == *joined,
        None => is_left_out(negative, left, member),
    }
}
