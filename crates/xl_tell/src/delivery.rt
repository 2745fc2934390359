// The frame that a part of an event delivers.
ghost use Rattle.std.specs.Prelude.{◌≡◌, IfSome, IsTrue, is_some};
ghost use Rattle.xl_core.specs.Hearing.{speech_of};
ghost use Rattle.xl_ledger.specs.Chains.{place_of};
ghost use Rattle.xl_tell.specs.Before.{Delivers, Says, SaysSet, is_known as is_known_by};
ghost use Rattle.xl_world.specs.Sending.{body_said, said_to, sent_as};

use crate::nodes::frame_at;
use xl_base::{LedgerId, NodeNo};
use xl_core::Node;
use xl_sched::What;
use xl_told::Hashed;
use xl_trie::Trie;
use xl_wire::{LONGEST_FRAME, Parted, split};
use xl_world::{Said, Sent, World};

/// The kind of a frame that tells a set.
const TX_SET: u8 = 4;

/// The frame that is delivered, if that is what happens.
pub(crate) fn frame_of<'a>(world: &'a World, what: &What) -> Option<Sent<'a>>
    ensures { IfSome result (λ frame. Delivers world.now what.now frame) }
{
    match what {
        What::Deliver { place } => frame_at(world, *place),
        _ => None,
    }
}

/// The frame between these two in which this is said says it.
pub(crate) fn saying(from: NodeNo, to: NodeNo, said: &Said)
    ensures { Says (said_to from to (body_said said.now)) (speech_of (body_said said.now)) }
{
    // What is said is a body, which fits into a frame.
    let _body = said.body();
}

/// Whether these are the bytes that are kept of a set of the frame's sender.
fn is_kept_set(frame: &Sent<'_>, kept: &[u8]) -> bool
    requires { frame.now ≡ sent_as frame.now.from frame.now.to kept.now }
    ensures { IsTrue result → SaysSet frame.now }
{
    match split(kept) {
        Parted::Whole(raw) if raw.kind == TX_SET => {
            raw.from == frame.from().get() && raw.length == kept.len()
        }
        _ => false,
    }
}

/// Whether it is a set of its sender, which alone is kept as bytes.
pub(crate) fn is_set(frame: &Sent<'_>, room: &mut [u8; LONGEST_FRAME]) -> bool
    ensures { IsTrue result → SaysSet frame.now }
{
    let length = frame.put(room);
    is_kept_set(frame, &room[..length])
}

/// Whether the node knows the ledger of this id.
fn knows(node: &Node<Trie>, id: &LedgerId) -> bool
    ensures { result ≡ is_some (place_of node.now.ledgers.headers id.now) }
{
    node.registry().find(id).is_some()
}

/// Whether it is a header of a ledger that the node knows, which it then refuses.
pub(crate) fn is_known(node: &Node<Trie>, hashed: &mut Hashed, said: &Said) -> bool
    ensures { result ≡ is_known_by node.now (speech_of (body_said said.now)) }
{
    match said {
        Said::Header(bytes) => {
            let id = hashed.header_id(bytes);
            knows(node, &id)
        }
        Said::Proposal(_) => false,
        Said::Validation(_) => false,
        Said::Tx(_) => false,
    }
}
