// What is known of a round.
ghost use Rattle.std.specs.Prelude.{◌≡◌};
ghost use Rattle.xl_base.specs.Sets.{IsSet};
ghost use Rattle.xl_rounds.specs.Positions.{count_agreeing as agreeing_of, count as count_of, position_of};
ghost use Rattle.xl_rounds.specs.Rounds.{our_position as our_position_of};

use super::Round;
use xl_base::{Millis, NodeNo, TxId};
use xl_wire::Proposal;

impl Round {
    /// When the round began.
    pub fn started(&self) -> Millis
        ensures { result ≡ self.now.setting.started }
    {
        self.setting.started
    }

    /// Our own position. In the open phase it names the ledger of the round, and else what an earlier round left.
    pub fn position(&self) -> Proposal
        ensures { result ≡ our_position_of self.now }
    {
        self.our_position()
    }

    /// The position of a member, if it has one.
    pub fn position_of(&self, member: NodeNo) -> Option<Proposal>
        ensures { result ≡ position_of self.now.positions member }
    {
        self.positions.of(member)
    }

    /// The transactions that are pending, rising.
    pub fn pending(&self) -> &[TxId]
        ensures value { result.now ≡ self.now.pending }
        ensures set { IsSet self.now.pending }
    {
        self.pending.as_slice()
    }

    /// How many members have a position.
    pub fn proposers(&self) -> u32
        ensures { result ≡ count_of self.now.positions }
    {
        self.positions.count()
    }

    /// How many members' positions name our set.
    pub fn agreeing(&self) -> u32
        ensures { result ≡ agreeing_of self.now.positions }
    {
        self.positions.agreeing()
    }
}
