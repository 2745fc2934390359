ghost use Rattle.std.specs.Prelude.{◌≡◌, ◌≤◌, Some, None, IsSome, length};
ghost use Rattle.xl_tags.specs.Rings.{key_of};
ghost use Rattle.xl_core.specs.Draining.{next_on, node_for, IsNext, PutsNone, PutsOne};
ghost use Rattle.xl_core.specs.Greetings.{greeting_of, greeting_frames};

use super::Node;
use crate::Greeting;
use crate::putting::Put;
use crate::sending::{TagPlace, put_body};
use xl_base::NodeNo;
use xl_ledger::{Branch, LedgerNo};

impl<B: Branch + Drop> Node<B> {
    /// The chain of the ledger on which its round is, except for the root.
    pub(crate) fn greeting(&self) -> Greeting
        ensures { result ≡ greeting_of self.now }
    {
        Greeting {
            target: self.registry.id_at(self.round.previous()),
            next: 1,
        }
    }

    /// The ledger of the next header of a greeting, or None if all were handed out.
    pub(crate) fn next_on_chain(&self, greeting: &Greeting) -> Option<LedgerNo>
        ensures value { result ≡ next_on self.now.ledgers.headers greeting.now }
        ensures known { IsNext self.now greeting.now result }
    {
        let target = self.registry.find(&greeting.target)?;
        let mut walk = self.registry.walk();
        if greeting.next > walk.seq_of(target) {
            return None;
        }
        Some(walk.ancestor(target, greeting.next))
    }

    /// Puts the frame of the next header of a greeting for a member at a place of the room, and answers where the next
    /// frame goes. None if all were handed out, or the room is too short: it is as it was then.
    pub(crate) fn put_next(
        &self,
        to: NodeNo,
        tags: TagPlace,
        greeting: &Greeting,
        at: usize,
        room: &mut [u8],
    ) -> Option<usize>
        requires key { IsSome (key_of self.now.keys to) }
        requires place { at ≤ length room.old }
        ensures none { result ≡ None →
            PutsNone (greeting_frames (node_for tags self.now) (Some greeting.now) to) at room.old room.new }
        ensures some { PutsOne (node_for tags self.now) to greeting.now at result room.old room.new }
    {
        let ledger = self.next_on_chain(greeting)?;
        let body = self.header_body_at(ledger);
        match put_body(&self.keys, to, tags, body, at, room) {
            Put::Written(count) => Some(at + count),
            Put::PassedOver | Put::NoRoom => None,
        }
    }
}
