// The frames in which a node sends what it says.
ghost use Rattle.std.specs.Prelude.{◌≡◌, ◌+◌, ◌≤◌, Some, IsSome, IsTrue, length};
ghost use Rattle.xl_tags.specs.Rings.{key_of};
ghost use Rattle.xl_wire.specs.Writing.{body_length as body_length_of};
ghost use Rattle.xl_core.specs.Draining.{IsPut};
ghost use Rattle.xl_core.specs.Sending.{keys_for, sealed_bytes, has_spelling};

use crate::putting::{Put, put_frame};
use xl_base::NodeNo;
use xl_tags::{Keys, seal};
use xl_wire::{AROUND, Body, Frame, LONGEST_FRAME, encode};

/// What is written where the tag of a frame goes.
#[derive(Clone, Copy)]
pub enum TagPlace {
    /// The tag under the receiver's key.
    Sealed,
    /// Zeros.
    Blank,
}

/// Puts the frame of a body for another member, sealed by the key for it or with no tag yet, at a place of the room,
/// unless the room is too short.
pub fn put_body(
    keys: &Keys,
    to: NodeNo,
    tags: TagPlace,
    body: Body<'_>,
    at: usize,
    room: &mut [u8],
) -> Put
    requires key { IsSome (key_of keys.now to) }
    requires place { at ≤ length room.old }
    ensures put { IsPut (Some (sealed_bytes (keys_for tags keys.now) keys.now.me to body.entry))
        at room.old room.new result }
    ensures spelled { IsTrue (has_spelling keys.now.me to body.entry) }
{
    let length = AROUND + body.len();
    if room.len() - at < length {
        return put_through(&mut [0; LONGEST_FRAME], keys, to, tags, body, at, room);
    }
    write_into(keys, to, tags, body, &mut room[at..at + length]);
    Put::Written(length)
}

/// Encodes into a room of its own first, because the room of the caller is too short for the whole frame.
fn put_through(
    own: &mut [u8],
    keys: &Keys,
    to: NodeNo,
    tags: TagPlace,
    body: Body<'_>,
    at: usize,
    room: &mut [u8],
) -> Put
    requires own { 46 + body_length_of body ≤ length own.old }
    requires key { IsSome (key_of keys.now to) }
    requires place { at ≤ length room.old }
    ensures put { IsPut (Some (sealed_bytes (keys_for tags keys.now) keys.now.me to body.entry))
        at room.old room.new result }
    ensures spelled { IsTrue (has_spelling keys.now.me to body.entry) }
{
    let frame = &mut own[..AROUND + body.len()];
    write_into(keys, to, tags, body, frame);
    put_frame(frame, at, room)
}

/// Writes the frame of a body for another member into a place of its length.
fn write_into(keys: &Keys, to: NodeNo, tags: TagPlace, body: Body<'_>, place: &mut [u8])
    requires key { IsSome (key_of keys.now to) }
    requires long { length place.old ≡ 46 + body_length_of body }
    ensures sealed { place.new ≡ sealed_bytes (keys_for tags keys.now) keys.now.me to body.entry }
    ensures long { length place.new ≡ length place.old }
    ensures spelled { IsTrue (has_spelling keys.now.me to body.entry) }
{
    let frame = Frame {
        from: keys.me().get(),
        to: to.get(),
        body,
        tag: [0; 32],
    };
    encode(&frame, place);
    match tags {
        TagPlace::Sealed => seal(keys, to, place),
        TagPlace::Blank => (),
    }
}
