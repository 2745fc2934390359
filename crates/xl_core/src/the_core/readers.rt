// What a core knows.
ghost use Rattle.std.specs.Prelude.{◌≡◌, ◌↔◌, ◌<◌, [], None};
ghost use Rattle.xl_validations.specs.Rows.{current_of, heard_of, is_full_of};
ghost use Rattle.xl_validations.specs.Votes.{votes_of};
ghost use Rattle.xl_core.specs.Node.{preferred};

use super::Core;
use crate::{Node, Report};
use xl_base::{LedgerId, NodeNo, Seq};
use xl_ledger::{Branch, Registry};
use xl_lists::List;

impl<B: Branch + Drop> Core<B> {
    /// The ledger that the members' votes prefer, or None exactly if there is no vote.
    pub fn preferred(&self) -> Option<Report>
        ensures value { result ≡ preferred self.now.node }
        ensures none { (result ≡ None) ↔ (votes_of self.now.node.ledgers.headers self.now.node.rows ≡ []) }
    {
        self.node.preferred()
    }

    /// The ledgers that the node knows.
    pub fn registry(&self) -> &Registry
        ensures { result.now ≡ self.now.node.ledgers }
    {
        self.node.registry()
    }

    /// The list in force.
    pub fn list(&self) -> &List
        ensures { result.now ≡ self.now.node.list }
    {
        self.node.list()
    }

    /// Whether a member's row holds a current full validation of this sequence and id.
    pub fn holds(&self, member: NodeNo, seq: Seq, id: &LedgerId) -> bool
        ensures { result ≡ is_full_of seq id.now (current_of self.now.node.rows member) }
    {
        self.node.holds(member, seq, id)
    }

    /// The ledger that a member last reported, as its current validation tells. None exactly if it has no row, or
    /// its row has no current validation, or that doesn't tell.
    pub fn heard(&self, member: NodeNo) -> Option<LedgerId>
        ensures { result ≡ heard_of self.now.node.rows member }
    {
        self.node.heard(member)
    }

    /// The last sequence that was saved.
    pub fn kept(&self) -> Seq
        ensures { result ≡ self.now.node.kept }
    {
        self.node.kept()
    }

    /// The node.
    pub fn node(&self) -> &Node<B>
        ensures value { result.now ≡ self.now.node }
    {
        &self.node
    }
}
