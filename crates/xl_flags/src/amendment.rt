ghost use Rattle.std.specs.Prelude.{◌≡◌, ◌+◌, ◌-◌, ◌*◌, ◌<◌, ◌≤◌, ℕ, length, replicate, false};
ghost use Rattle.xl_disputes.specs.Disputes.{has};
ghost use Rattle.xl_flags.specs.Kept.{favoured_by, is_favoured, is_majority, line_list, after_report, row_news};
ghost use Rattle.xl_flags.specs.declared.standing.Standing.TheVariants.{Without};

use crate::news::FlagLine;
use crate::standing::Standing;
use xl_base::{MOST_MEMBERS, NodeNo, Secs, Seq, TxId};

/// An amendment, who favours it, and how it stands at each node. The first place is that of member 1.
#[derive(Clone, Copy)]
pub(crate) struct Amendment {
    pub(crate) id: TxId,
    pub(crate) favoured: [bool; MOST_MEMBERS],
    pub(crate) standings: [Standing; MOST_MEMBERS],
}

impl Amendment {
    /// No member favours it yet, and it stands nowhere.
    pub(crate) fn new(id: TxId) -> Amendment
        ensures { result ≡ record { id = id; favoured = replicate 64 false; standings = replicate 64 Without } }
    {
        Amendment {
            id,
            favoured: [false; MOST_MEMBERS],
            standings: [Standing::Without; MOST_MEMBERS],
        }
    }

    /// A member favours it if it is among these, and no longer if it isn't.
    pub(crate) fn favour(&mut self, member: NodeNo, ids: &[TxId])
        ensures { self.new ≡ favoured_by member ids.now self.old }
    {
        self.favoured[place_of(member)] = is_among(ids, &self.id);
    }

    /// How it stands at a node after a report more, and what is said of that.
    pub(crate) fn report(
        &mut self,
        node: NodeNo,
        seq: Seq,
        close: Secs,
        counted: &[NodeNo],
    ) -> Option<FlagLine>
        requires { length counted.now ≤ 64 }
        ensures row { self.new ≡ after_report node close counted.now self.old }
        ensures news { line_list result ≡ row_news node seq close counted.now self.old }
    {
        let place = place_of(node);
        let before = self.standings[place];
        let after = before.after(close, has_majority(&self.favoured, counted));
        self.standings[place] = after;
        after.news(before, node, seq, self.id)
    }
}

/// Whether more than four fifths of the counted members favour it.
fn has_majority(favoured: &[bool; MOST_MEMBERS], counted: &[NodeNo]) -> bool
    requires { length counted.now ≤ 64 }
    ensures { result ≡ is_majority favoured.now counted.now }
{
    let yes = counted
        .iter()
        .filter(|&&member| favoured[place_of(member)])
        .count();
    5 * yes > 4 * counted.len()
}

fn is_among(ids: &[TxId], id: &TxId) -> bool
    ensures { result ≡ has ids.now id.now }
{
    ids.contains(id)
}

/// The place of a member's number.
pub(crate) fn place_of(member: NodeNo) -> usize
    ensures value { result ≡ member - 1 }
    ensures within { result < 64 }
    ensures first { 1 ≤ member }
    ensures last { member ≤ 64 }
{
    member.get() as usize - 1
}
