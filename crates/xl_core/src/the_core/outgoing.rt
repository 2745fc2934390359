// What a node has yet to send, for each number that a member may have.
ghost use Rattle.std.specs.Prelude.{◌≡◌, ◌+◌, ◌-◌, ◌≤◌, ◌++◌, ℕ, Some, None, IsSome, drop, length};
ghost use Rattle.xl_tags.specs.Rings.{key_of};
ghost use Rattle.xl_core.specs.Draining.{node_for, TakesFirst, TakesNone};
ghost use Rattle.xl_core.specs.Items.{drained_bytes, drained_for, lost_for};
ghost use Rattle.xl_core.specs.Queues.{waiting_at};

use crate::putting::Put;
use crate::sending::TagPlace;
use crate::{Item, Node};
use xl_base::{MOST_MEMBERS, NodeNo};
use xl_ledger::Branch;
use xl_queues::Broadcast;

/// How many items may wait for a peer.
pub const OUTGOING: usize = 64;

/// What waits for each number from 1 on, in this order.
pub type Waiting = Broadcast<Item, OUTGOING, MOST_MEMBERS>;

/// The place of a number among the readers.
pub fn reader_of(member: NodeNo) -> usize
    ensures place { result + 1 ≡ member }
    ensures most { result + 1 ≤ 64 }
{
    member.get() as usize - 1
}

/// Writes the frames of the oldest items for a member into the room, as many as fit, and takes these items out. An item
/// that is passed over is dropped.
pub fn drain<B: Branch + Drop>(
    waiting: &mut Waiting,
    node: &Node<B>,
    member: NodeNo,
    tags: TagPlace,
    room: &mut [u8],
) -> usize
    requires key { IsSome (key_of node.now.keys member) }
    ensures count { result ≡ length (drained_bytes (node_for tags node.now) waiting.old member (length room.old)) }
    ensures frames { room.new
        ≡ drained_bytes (node_for tags node.now) waiting.old member (length room.old) ++ drop result room.old }
    ensures taken { waiting.new ≡ drained_for (node_for tags node.now) waiting.old member (length room.old) }
{
    let mut at = 0;
    while let Some(next) = drain_first(waiting, node, member, tags, at, room) {
        at = next;
    }
    at
}

/// Writes the frame of the oldest item for a member at a place of the room, takes the item out, and answers where the
/// next frame goes. None if nothing waits or the room is too short: all is as it was then.
fn drain_first<B: Branch + Drop>(
    waiting: &mut Waiting,
    node: &Node<B>,
    member: NodeNo,
    tags: TagPlace,
    at: usize,
    room: &mut [u8],
) -> Option<usize>
    requires key { IsSome (key_of node.now.keys member) }
    requires place { at ≤ length room.old }
    ensures none { result ≡ None
        → TakesNone (node_for tags node.now) member at waiting.old waiting.new room.old room.new }
    ensures some { TakesFirst (node_for tags node.now) member at result waiting.old waiting.new room.old room.new }
    ensures numbers { (length waiting.old ≡ 64) × (1 ≤ member) × (member ≤ 64) }
{
    let reader = reader_of(member);
    let item = *waiting.first(reader)?;
    match node.put(member, tags, &item, at, room) {
        Put::Written(count) => {
            waiting.pop(reader);
            Some(at + count)
        }
        Put::PassedOver => {
            waiting.pass_over(reader);
            Some(at)
        }
        Put::NoRoom => None,
    }
}

/// How many items wait for a member.
pub fn count_for(waiting: &Waiting, member: NodeNo) -> usize
    ensures { result ≡ length (waiting_at waiting.now member).items }
{
    waiting.len(reader_of(member))
}

/// How many items for a member were lost: none for one that is no peer.
pub fn lost_for<B: Branch + Drop>(waiting: &Waiting, node: &Node<B>, member: NodeNo) -> u64
    ensures { result ≡ lost_for node.now waiting.now member }
{
    if node.keys().has(member) {
        waiting.lost(reader_of(member))
    } else {
        0
    }
}
