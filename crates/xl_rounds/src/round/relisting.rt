ghost use Rattle.std.specs.Prelude.{◌≡◌};
ghost use Rattle.xl_rounds.specs.Relisting.{relisted_round, unless_listed, without_member};

use super::Round;
use crate::members::{member_at, place_of};
use xl_base::{MOST_MEMBERS, NodeNo};
use xl_lists::List;

impl Round {
    /// Goes over to another list: positions, held sets, later proposals and notes of leaving of members that aren't on
    /// it go, and all else stays.
    pub fn relist(&mut self, list: &List)
        ensures relisted { self.new ≡ relisted_round list.now.members self.old }
        // So the round stays on its ledger.
        ensures setting { self.new.setting ≡ self.old.setting }
    {
        for place in 0..MOST_MEMBERS {
            self.forget_unless_listed(member_at(place), list);
        }
    }

    fn forget_unless_listed(&mut self, member: NodeNo, list: &List)
        ensures { self.new ≡ unless_listed list.now.members member self.old }
    {
        if !list.has(member) {
            self.forget(member);
        }
    }

    /// Nothing is known of a member any more.
    fn forget(&mut self, member: NodeNo)
        ensures { self.new ≡ without_member member self.old }
    {
        let place = place_of(member);
        self.positions.forget(member);
        self.left[place] = false;
        self.later.remove(place);
    }
}
