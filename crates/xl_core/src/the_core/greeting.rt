// With which chain each peer is greeted.
ghost use Rattle.std.specs.Prelude.{◌≡◌, Some, IsSome, is_some, length};
ghost use Rattle.xl_tags.specs.Rings.{key_of};
ghost use Rattle.xl_core.specs.Draining.{is_handed, node_for, Writes};
ghost use Rattle.xl_core.specs.Greetings.{further, further_at, greeting_at, greeting_frames, with_greeting};
ghost use Rattle.xl_core.specs.Queues.{count_fitting};

use super::outgoing::reader_of;
use crate::Node;
use crate::sending::TagPlace;
use xl_base::{LedgerId, MOST_MEMBERS, NodeNo, Seq};
use xl_ledger::Branch;

/// The headers of a ledger's chain that a peer is yet to be handed.
#[derive(Clone, Copy, PartialEq, Eq)]
pub struct Greeting {
    /// The last ledger of the chain.
    pub target: LedgerId,
    /// The sequence of the next header.
    pub next: Seq,
}

/// For each number from 1 on, with what a member of it is greeted.
pub type Greetings = [Option<Greeting>; MOST_MEMBERS];

/// A member is greeted from now on, and no longer as it was before.
pub fn greet(greetings: &mut Greetings, member: NodeNo, greeting: Greeting)
    ensures numbers { length greetings.old ≡ 64 }
    ensures greeted { greetings.new ≡ with_greeting greetings.old member (Some greeting) }
{
    greetings[reader_of(member)] = Some(greeting);
}

/// Writes the frames of the headers with which a member is greeted into the room, as many as fit, and answers how many
/// bytes were written.
pub fn hand_chain<B: Branch + Drop>(
    greetings: &mut Greetings,
    node: &Node<B>,
    member: NodeNo,
    tags: TagPlace,
    room: &mut [u8],
) -> usize
    requires key { IsSome (key_of node.now.keys member) }
    ensures written { Writes (greeting_frames (node_for tags node.now) (greeting_at greetings.old member) member)
        result room.old room.new }
    ensures handed { greetings.new ≡ further_at greetings.old member
        (count_fitting (greeting_frames (node_for tags node.now) (greeting_at greetings.old member) member)
        (length room.old)) }
{
    let reader = reader_of(member);
    match greetings[reader] {
        Some(greeting) => {
            let mut greeting = greeting;
            let written = hand_headers(node, member, tags, &mut greeting, room);
            greetings[reader] = Some(greeting);
            written
        }
        None => 0,
    }
}

/// Writes the headers of one greeting, as many as fit.
fn hand_headers<B: Branch + Drop>(
    node: &Node<B>,
    member: NodeNo,
    tags: TagPlace,
    greeting: &mut Greeting,
    room: &mut [u8],
) -> usize
    requires key { IsSome (key_of node.now.keys member) }
    ensures written { Writes (greeting_frames (node_for tags node.now) (Some greeting.old) member)
        result room.old room.new }
    ensures handed { greeting.new ≡ further
        (count_fitting (greeting_frames (node_for tags node.now) (Some greeting.old) member) (length room.old)) greeting.old }
{
    let mut at = 0;
    while let Some(next) = node.put_next(member, tags, greeting, at, room) {
        at = next;
        greeting.next += 1;
    }
    at
}

/// Whether a member was handed all headers with which it is greeted.
pub fn is_greeted<B: Branch + Drop>(greetings: &Greetings, node: &Node<B>, member: NodeNo) -> bool
    ensures { result ≡ is_handed node.now (greeting_at greetings.now member) }
{
    match &greetings[reader_of(member)] {
        Some(greeting) => node.next_on_chain(greeting).is_none(),
        None => true,
    }
}

/// Whether a member was greeted since the core opened.
pub fn has_greeting(greetings: &Greetings, member: NodeNo) -> bool
    ensures { result ≡ is_some (greeting_at greetings.now member) }
{
    greetings[reader_of(member)].is_some()
}
