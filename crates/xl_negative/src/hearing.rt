// What nodes hear of validations.
ghost use Rattle.std.specs.Prelude.{◌≡◌, ◌++◌, ◌==◌, ◌&&◌, drop, map, slice_get, IfOk, OnOk};
ghost use Rattle.xl_sched.specs.Fits.{IsFitLied};
ghost use Rattle.xl_tags.specs.Opening.{is_sealed as is_sealed_by};
ghost use Rattle.xl_tags.specs.Rings.{schedule_ring};
ghost use Rattle.xl_wire.specs.Bodies.{body_of};
ghost use Rattle.xl_wire.specs.Raws.{SpellsRaw, raw_frame};
ghost use Rattle.xl_world.specs.Schedule.{IsPlausible, lied_bytes};
ghost use Rattle.xl_negative.specs.Hearing.{
  heard_in,
  heard_if_sent,
  heard_in_frame,
  heard_in_sent,
  heard_itself,
  heard_of,
  said_in as said_in_bytes,
  said_in_body as said_in_the_body,
  said_in_frame as said_in_the_frame,
  said_if_read as said_if_it_reads,
};

use std::alloc::Global;
use xl_base::{NodeNo, OutOfMemory};
use xl_lists::SaidLedger;
use xl_sched::{Lied, What};
use xl_tags::{Keys, is_sealed};
use xl_wire::{Body, Parted, Raw, Validation, read_body, split};
use xl_world::{Sent, World};

/// The node of a number hears that a member says a ledger.
#[derive(Clone, Copy, PartialEq, Eq)]
pub struct Heard {
    pub node: NodeNo,
    pub said: SaidLedger,
}

/// What nodes hear in the frames that are handed to them when something happens.
pub fn heard_in(alloc: Global, world: &World, what: &What) -> Result<Vec<Heard>, OutOfMemory>
    requires { IsPlausible what.now }
    ensures { IfOk result (λ heard. heard.items ≡ heard_in world.now what.now) }
{
    let mut heard = Vec::new(alloc);
    hear(alloc, world, what, &mut heard)?;
    Ok(heard)
}

fn hear(
    alloc: Global,
    world: &World,
    what: &What,
    heard: &mut Vec<Heard>,
) -> Result<(), OutOfMemory>
    requires { IsPlausible what.now }
    ensures { OnOk result (heard.new.items ≡ heard.old.items ++ heard_in world.now what.now) }
{
    match what {
        What::Deliver { place } => match place.checked_sub(1) {
            Some(before) => hear_place(alloc, world, before as usize, heard),
            None => Ok(()),
        },
        What::All => hear_sent(alloc, world, heard),
        What::Lie { from, to, what } => hear_lie(world, *from, *to, what, heard),
        What::Raw { to, bytes } => hear_bytes(world, *to, bytes.as_slice(), heard),
        _ => Ok(()),
    }
}

/// Nodes hear what they issued themselves, which are these validations.
pub fn hear_issued(heard: &mut Vec<Heard>, issued: &[SaidLedger]) -> Result<(), OutOfMemory>
    ensures { OnOk result (heard.new.items ≡ heard.old.items ++ map heard_itself issued.now) }
{
    for said in issued {
        heard.push(Heard {
            node: said.member,
            said: *said,
        })?;
    }
    Ok(())
}

/// The sent frame of a place, from 0 on, is handed to its receiver, if there is one.
fn hear_place(
    alloc: Global,
    world: &World,
    place: usize,
    heard: &mut Vec<Heard>,
) -> Result<(), OutOfMemory>
    ensures { OnOk result (heard.new.items
        ≡ heard.old.items ++ heard_if_sent world.now (slice_get world.now.sent place)) }
{
    match world.sent().get(place) {
        Some(frame) => hear_frame(alloc, world, &frame, heard),
        None => Ok(()),
    }
}

/// The sent frames after the mark are handed to their receivers.
fn hear_sent(alloc: Global, world: &World, heard: &mut Vec<Heard>) -> Result<(), OutOfMemory>
    ensures { OnOk result (heard.new.items
        ≡ heard.old.items ++ heard_in_sent world.now (drop world.now.mark world.now.sent)) }
{
    for place in world.mark()..world.sent().len() {
        hear_place(alloc, world, place, heard)?;
    }
    Ok(())
}

/// A sent frame is handed to its receiver.
fn hear_frame(
    alloc: Global,
    world: &World,
    frame: &Sent<'_>,
    heard: &mut Vec<Heard>,
) -> Result<(), OutOfMemory>
    ensures { OnOk result (heard.new.items ≡ heard.old.items ++ heard_in_frame world.now frame.now) }
{
    let bytes = frame.bytes(alloc)?;
    hear_bytes(world, frame.to(), bytes.as_slice(), heard)
}

/// A lie is handed to its receiver. What it hears there is known without the frame's bytes.
fn hear_lie(
    world: &World,
    from: NodeNo,
    to: NodeNo,
    lie: &Lied,
    heard: &mut Vec<Heard>,
) -> Result<(), OutOfMemory>
    requires { IsFitLied lie.now }
    ensures { OnOk result (heard.new.items ≡ heard.old.items ++ heard_of world.now to (lied_bytes from to lie.now)) }
{
    let Some(_core) = world.node(to) else {
        return Ok(());
    };
    if let Some(said) = said_in_lie(from, to, lie) {
        heard.push(Heard { node: to, said })?;
    }
    Ok(())
}

/// What the node of a number hears in the frame of a lie to it.
fn said_in_lie(from: NodeNo, to: NodeNo, lie: &Lied) -> Option<SaidLedger>
    ensures { result ≡ said_in_bytes (schedule_ring to) (lied_bytes from to lie.now) }
{
    match lie {
        Lied::Validation(validation) => said_in_validation(from, to, *validation),
        _ => None,
    }
}

/// It opens each validation but one of its own number, for which it has no key.
fn said_in_validation(from: NodeNo, to: NodeNo, validation: Validation) -> Option<SaidLedger>
    ensures { result ≡ said_in_bytes (schedule_ring to) (lied_bytes from to (Lied.Validation validation)) }
{
    if from == to {
        None
    } else {
        Some(SaidLedger {
            member: from,
            seq: validation.seq,
            id: validation.id,
        })
    }
}

/// Bytes are handed to the node of a number, if there is one.
fn hear_bytes(
    world: &World,
    to: NodeNo,
    bytes: &[u8],
    heard: &mut Vec<Heard>,
) -> Result<(), OutOfMemory>
    ensures { OnOk result (heard.new.items ≡ heard.old.items ++ heard_of world.now to bytes.now) }
{
    let Some(core) = world.node(to) else {
        return Ok(());
    };
    if let Some(said) = said_in(core.node().keys(), bytes) {
        heard.push(Heard { node: to, said })?;
    }
    Ok(())
}

/// What the owner of these keys hears in bytes, which must be one whole frame.
fn said_in(keys: &Keys, bytes: &[u8]) -> Option<SaidLedger>
    ensures { result ≡ said_in_bytes keys.now bytes.now }
{
    match split(bytes) {
        Parted::Whole(raw) => {
            if bytes.len() <= raw.length {
                said_in_frame(keys, &raw, bytes)
            } else {
                None
            }
        }
        Parted::Need(_) | Parted::Refused(_) => None,
    }
}

fn said_in_frame(keys: &Keys, raw: &Raw<'_>, bytes: &[u8]) -> Option<SaidLedger>
    requires { SpellsRaw (raw_frame raw.now) bytes.now }
    ensures { result ≡ said_in_the_frame keys.now (raw_frame raw.now) }
{
    let from = NodeNo::new(raw.from)?;
    // So a tag is computed only of a validation.
    let said = said_if_read(from, raw)?;
    if opens(keys, raw, bytes) {
        Some(said)
    } else {
        None
    }
}

/// What a frame's body says of a ledger, if it is a validation.
fn said_if_read(from: NodeNo, raw: &Raw<'_>) -> Option<SaidLedger>
    ensures { result ≡ said_if_it_reads from (body_of raw.now.kind raw.now.body.now) }
{
    match read_body(raw) {
        Ok(body) => said_in_body(from, &body),
        Err(_) => None,
    }
}

/// Whether the owner of the keys opens a frame that comes from a member's number.
fn opens(keys: &Keys, raw: &Raw<'_>, bytes: &[u8]) -> bool
    requires { SpellsRaw (raw_frame raw.now) bytes.now }
    ensures { result ≡ (raw.now.to == keys.now.me && is_sealed_by keys.now (raw_frame raw.now)) }
{
    raw.to == keys.me().get() && is_sealed(keys, raw, bytes)
}

fn said_in_body(from: NodeNo, body: &Body<'_>) -> Option<SaidLedger>
    ensures { result ≡ said_in_the_body from body.now }
{
    match body {
        Body::Validation(validation) => Some(SaidLedger {
            member: from,
            seq: validation.seq,
            id: validation.id,
        }),
        _ => None,
    }
}
