// What waits at a core is drained and sent.
ghost use Rattle.std.specs.Prelude.{◌≡◌, ◌≢◌, ◌<◌, ◌≤◌, ◌∷◌, ℕ, List, [], None, length, take, map, OnErr, OnOk, IfOk, IfSome, IsTrue};
ghost use Rattle.xl_core.specs.Answers.{given_in};
ghost use Rattle.xl_wire.specs.Heads.{split_of};
ghost use Rattle.xl_wire.specs.Heads.Split.{Whole};
ghost use Rattle.xl_wire.specs.Raws.{RawFrame};
ghost use Rattle.xl_wire.specs.Lengths.{longest_frame};
ghost use Rattle.xl_core.specs.Queues.{stream_of};
ghost use Rattle.xl_core.specs.Greetings.{greeting_at};
ghost use Rattle.xl_core.specs.Sending.{without_tag, has_spelling};
ghost use Rattle.xl_tags.specs.Rings.{schedule_ring};
ghost use Rattle.xl_world.specs.declared.place.Place.{Place};
ghost use Rattle.xl_world.specs.World.{place_at};
ghost use Rattle.xl_world.specs.Emptying.{after_events, drains_of, drained_once, drains_for, given_by};
ghost use Rattle.xl_world.specs.Ends.{IsLonger};
ghost use Rattle.xl_world.specs.Indexes.{with_frames};
ghost use Rattle.xl_world.specs.Rested.{Between, IsRested};
ghost use Rattle.xl_world.specs.Seen.{AreFrames, IsFirstFrame, given_at, put_drained};
ghost use Rattle.xl_world.specs.Stands.{IsSeat};
ghost use Rattle.xl_world.specs.Itemwise.{Sends};
ghost use Rattle.xl_world.specs.Sending.{said_to, sent_as};

use crate::act::Seat;
use crate::lie::put_blank;
use crate::members::Members;
use crate::place::{NodeCore, Place};
use crate::said::NOTHING_SAID;
use crate::traffic::Traffic;
use xl_base::{NodeNo, OutOfMemory};
use xl_wire::{AROUND, Body, LONGEST_FRAME};

/// How many bytes the frame has with which these begin, or None if they begin with no whole frame. Its length alone is
/// read: frames that were just written are well formed, and of other bytes the answer says nothing.
fn first_length(bytes: &[u8]) -> Option<usize>
    ensures some { IfSome result (λ length. IsFirstFrame length bytes.now) }
    ensures none { result ≡ None → (f : RawFrame) → split_of bytes.now ≢ Whole f }
{
    if bytes.len() < AROUND {
        return None;
    }
    let length = AROUND + u16::from_be_bytes([bytes[4], bytes[5]]) as usize;
    if length <= bytes.len() {
        Some(length)
    } else {
        None
    }
}

/// Frames that stand one behind the other are sent, each as one.
fn send_each(
    from: NodeNo,
    to: NodeNo,
    frames: &[u8],
    traffic: &mut Traffic,
) -> Result<(), OutOfMemory>
    requires short { length frames.now ≤ longest_frame }
    ensures sent { (each : List (List ℕ)) → AreFrames each → frames.now ≡ stream_of each →
        OnOk result (traffic.new ≡ with_frames traffic.old (map (sent_as from to) each)) }
    ensures longer { IsLonger traffic.old.frames traffic.new.frames }
{
    let mut at = 0;
    while let Some(length) = first_length(&frames[at..]) {
        traffic.push(from, to, &frames[at..at + length])?;
        at += length;
    }
    Ok(())
}

/// One drain for another number: how many bytes it gave, or None if it gave nothing. Its frames have no tags.
fn drain_once(core: &mut NodeCore, to: NodeNo, room: &mut [u8; LONGEST_FRAME]) -> Option<usize>
    requires other { to ≢ core.old.node.me }
    requires keys { core.old.node.keys ≡ schedule_ring core.old.node.me }
    ensures core { core.new ≡ (drained_once core.old to).core }
    ensures none { result ≡ None → given_in (drained_once core.old to).answer ≡ [] }
    ensures some { IfSome result (λ count.
        (0 < count) × (count ≤ longest_frame)
        × (take count room.new ≡ stream_of (map without_tag (given_in (drained_once core.old to).answer)))) }
{
    if core.is_idle(to) {
        return None;
    }
    let count = core.drain_blank(to, room);
    if count == 0 { None } else { Some(count) }
}

/// What waits for another number, which was greeted, is drained and sent, until a drain gives nothing.
#[inline(never)]
fn drain_greeted(
    core: &mut NodeCore,
    to: NodeNo,
    room: &mut [u8; LONGEST_FRAME],
    traffic: &mut Traffic,
) -> Result<(), OutOfMemory>
    requires other { to ≢ core.old.node.me }
    requires keys { core.old.node.keys ≡ schedule_ring core.old.node.me }
    ensures core { OnOk result (core.new ≡ after_events core.old (drains_for core.old to)) }
    ensures sent { OnOk result (traffic.new ≡ with_frames traffic.old (given_by core.old (drains_for core.old to))) }
    ensures longer { IsLonger traffic.old.frames traffic.new.frames }
{
    let from = core.node().me();
    // A member's number, for which the receiver has a key.
    let _number = from.get();
    while let Some(count) = drain_once(core, to, room) {
        send_each(from, to, &room[..count], traffic)?;
    }
    Ok(())
}

/// The frame of a body is sent.
fn send_body(
    from: NodeNo,
    to: NodeNo,
    body: Body<'_>,
    room: &mut [u8; LONGEST_FRAME],
    traffic: &mut Traffic,
) -> Result<(), OutOfMemory>
    ensures sent { OnOk result (traffic.new ≡ with_frames traffic.old (said_to from to body.entry ∷ [])) }
    ensures spelled { IsTrue (has_spelling from to body.entry) }
    ensures err { OnErr result (traffic.new ≡ traffic.old) }
{
    let mut said = NOTHING_SAID;
    if said.keep(&body) {
        traffic.push_said(from, to, &said)
    } else {
        let length = put_blank(from, to, body, &mut *room);
        traffic.push(from, to, &room[..length])
    }
}

/// The oldest item that waits for another number is taken out, and sent unless it is passed over. Answers whether there
/// was one.
fn send_first(
    core: &mut NodeCore,
    to: NodeNo,
    room: &mut [u8; LONGEST_FRAME],
    traffic: &mut Traffic,
) -> Result<bool, OutOfMemory>
    requires keys { core.old.node.keys ≡ schedule_ring core.old.node.me }
    ensures sends { IfOk result (λ more. Sends more core.old to traffic.old core.new traffic.new) }
    ensures err { OnErr result (traffic.new ≡ traffic.old) }
{
    let from = core.node().me();
    let Some(item) = core.first(to) else {
        return Ok(false);
    };
    match core.node().body_in(item) {
        Some(body) => {
            send_body(from, to, body, room, traffic)?;
            core.take_first(to);
            Ok(true)
        }
        None => {
            core.pass_over_first(to);
            Ok(true)
        }
    }
}

/// What waits for another number, which wasn't greeted, is sent, item by item.
fn send_waiting(
    core: &mut NodeCore,
    to: NodeNo,
    room: &mut [u8; LONGEST_FRAME],
    traffic: &mut Traffic,
) -> Result<(), OutOfMemory>
    requires plain { greeting_at core.old.greetings to ≡ None }
    requires keys { core.old.node.keys ≡ schedule_ring core.old.node.me }
    ensures core { OnOk result (core.new ≡ after_events core.old (drains_for core.old to)) }
    ensures sent { OnOk result (traffic.new ≡ with_frames traffic.old (given_by core.old (drains_for core.old to))) }
    ensures longer { IsLonger traffic.old.frames traffic.new.frames }
{
    // A member's number, for which there is a queue.
    let _number = to.get();
    let _first = core.first(to);
    let mut more = true;
    while more {
        more = send_first(core, to, room, traffic)?;
    }
    Ok(())
}

/// What waits for another number is drained and sent, until a drain gives nothing.
fn drain_for(
    core: &mut NodeCore,
    to: NodeNo,
    room: &mut [u8; LONGEST_FRAME],
    traffic: &mut Traffic,
) -> Result<(), OutOfMemory>
    requires other { to ≢ core.old.node.me }
    requires keys { core.old.node.keys ≡ schedule_ring core.old.node.me }
    ensures core { OnOk result (core.new ≡ after_events core.old (drains_for core.old to)) }
    ensures sent { OnOk result (traffic.new ≡ with_frames traffic.old (given_by core.old (drains_for core.old to))) }
    ensures longer { IsLonger traffic.old.frames traffic.new.frames }
{
    if core.was_greeted(to) {
        drain_greeted(core, to, room, traffic)
    } else {
        send_waiting(core, to, room, traffic)
    }
}

/// What waits for each other number is drained and sent, for each in its turn.
// Mostly nothing waits, and in the caller's each event would clear places for this.
#[inline(never)]
fn drain_each(
    core: &mut NodeCore,
    numbers: &[NodeNo],
    room: &mut [u8; LONGEST_FRAME],
    traffic: &mut Traffic,
) -> Result<(), OutOfMemory>
    requires keys { core.old.node.keys ≡ schedule_ring core.old.node.me }
    ensures core { OnOk result (core.new ≡ after_events core.old (drains_of numbers.now core.old)) }
    ensures sent { OnOk result
        (traffic.new ≡ with_frames traffic.old (given_by core.old (drains_of numbers.now core.old))) }
    ensures longer { IsLonger traffic.old.frames traffic.new.frames }
{
    for &to in numbers {
        if to != core.node().me() {
            drain_for(core, to, room, traffic)?;
        }
    }
    Ok(())
}

/// What waits for each other number is drained and sent. Mostly nothing waits for any.
fn drain(
    core: &mut NodeCore,
    numbers: &Members,
    room: &mut [u8; LONGEST_FRAME],
    traffic: &mut Traffic,
) -> Result<(), OutOfMemory>
    requires keys { core.old.node.keys ≡ schedule_ring core.old.node.me }
    ensures core { OnOk result (core.new ≡ after_events core.old (drains_of numbers.now core.old)) }
    ensures sent { OnOk result
        (traffic.new ≡ with_frames traffic.old (given_by core.old (drains_of numbers.now core.old))) }
    ensures longer { IsLonger traffic.old.frames traffic.new.frames }
{
    if numbers.are_idle(core) {
        return Ok(());
    }
    drain_each(core, numbers.as_slice(), room, traffic)
}

/// What waits at a node is drained for each other number and sent.
pub fn drain_at(
    places: &mut [Place],
    seat: Seat,
    numbers: &Members,
    room: &mut [u8; LONGEST_FRAME],
    traffic: &mut Traffic,
) -> Result<(), OutOfMemory>
    requires seat { IsSeat places.old seat }
    requires rested { (p : Place) → place_at seat.number places.old ≡ Some p → IsRested p.core }
    ensures places { OnOk result
        (places.new ≡ put_drained numbers.now (place_at seat.number places.old) places.old) }
    ensures sent { OnOk result
        (traffic.new ≡ with_frames traffic.old (given_at numbers.now (place_at seat.number places.old))) }
    ensures longer { IsLonger traffic.old.frames traffic.new.frames }
{
    let place = &mut places[seat.place];
    drain(&mut place.core, numbers, room, traffic)
}
