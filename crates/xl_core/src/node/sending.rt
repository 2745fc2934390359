ghost use Rattle.std.specs.Prelude.{◌≡◌, ◌<◌, ◌≤◌, IsSome, Some, None, length};
ghost use Rattle.xl_tags.specs.Rings.{key_of};
ghost use Rattle.xl_core.specs.Draining.{IsPut, node_for};
ghost use Rattle.xl_core.specs.Items.{frame_of, body_in as body_in_of, header_body as header_body_of, header_body_at as header_body_at_of};
ghost use Rattle.xl_core.specs.declared.item.Item.TheVariants as items;

use super::Node;
use crate::Item;
use crate::putting::Put;
use crate::sending::{TagPlace, put_body};
use xl_base::{LedgerId, NodeNo, SetId};
use xl_ledger::{Branch, Header, LedgerNo, header_bytes};
use xl_wire::{Body, Ids, Validation};

impl<B: Branch + Drop> Node<B> {
    /// Puts the frame in which it sends an item to a member at a place of a room, if the room is long enough. What
    /// isn't sent is passed over.
    pub(crate) fn put(
        &self,
        to: NodeNo,
        tags: TagPlace,
        item: &Item,
        at: usize,
        room: &mut [u8],
    ) -> Put
        requires key { IsSome (key_of self.now.keys to) }
        requires place { at ≤ length room.old }
        ensures { IsPut (frame_of (node_for tags self.now) to item.now) at room.old room.new result }
    {
        match self.body_in(item) {
            Some(body) => put_body(&self.keys, to, tags, body, at, room),
            None => Put::PassedOver,
        }
    }

    /// The body in which it says an item. None for a set that is no longer its own.
    pub fn body_in(&self, item: &Item) -> Option<Body<'_>>
        ensures { result ≡ body_in_of self.now item.now }
    {
        match *item {
            Item::Validation(validation) => Some(Body::Validation(validation)),
            Item::Tx(tx) => Some(Body::Tx(tx)),
            Item::TxSet(id) => self.own_set_body(id),
            Item::Proposal(proposal) => Some(Body::Proposal(proposal)),
            Item::Header(id) => self.header_body(&id),
        }
    }

    fn own_set_body(&self, id: SetId) -> Option<Body<'_>>
        ensures { result ≡ body_in_of self.now (items.TxSet id) }
    {
        if id == self.round.own_id() {
            Some(Body::TxSet(Ids::of(self.round.own_set())))
        } else {
            None
        }
    }

    fn header_body(&self, id: &LedgerId) -> Option<Body<'_>>
        ensures { result ≡ header_body_of self.now id.now }
    {
        match self.registry.find(id) {
            Some(ledger) => Some(self.header_body_at(ledger)),
            None => None,
        }
    }

    pub(super) fn header_body_at(&self, ledger: LedgerNo) -> Body<'_>
        requires { ledger < length self.now.ledgers.headers }
        ensures { result ≡ header_body_at_of self.now ledger }
    {
        let header = self.registry.walk().header(ledger);
        Body::Header(header_bytes(header))
    }
}
