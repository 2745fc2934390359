// Whether what comes is forged.
ghost use Rattle.std.specs.Prelude.{◌≡◌, IsTrue, Some};
ghost use Rattle.xl_core.specs.Hearing.{bytes_as_sealed};
ghost use Rattle.xl_lists.specs.Lists.{is_on};
ghost use Rattle.xl_tags.specs.Rings.{schedule_ring};
ghost use Rattle.xl_wire.specs.Heads.{split_of};
ghost use Rattle.xl_wire.specs.Raws.{SpellsRaw, raw_frame};
ghost use Rattle.xl_world.specs.Seen.{forged_at};
ghost use Rattle.xl_world.specs.Forgeries.{forges, is_made_up};
ghost use Rattle.xl_world.specs.Rested.{IsRested};
ghost use Rattle.xl_world.specs.World.{place_at};
ghost use Rattle.xl_world.specs.declared.place.Place.{Place};

use crate::act::position_of;
use crate::place::Place;
use crate::traffic::Traffic;
use xl_base::NodeNo;
use xl_tags::{Keys, is_sealed};
use xl_wire::{LONGEST_FRAME, Parted, Raw, split};

/// Whether a number is a declared liar's.
pub fn is_liar(liars: &[NodeNo], number: u32) -> bool
    ensures { result ≡ is_on liars.now number }
{
    liars.iter().any(|liar| number == liar.get())
}

/// Whether the frame is to the owner of the keys, from another member that is no liar, with the right tag, and nobody
/// sent it.
fn is_made_up(
    liars: &[NodeNo],
    traffic: &mut Traffic,
    keys: &Keys,
    raw: &Raw<'_>,
    bytes: &[u8],
    room: &mut [u8; LONGEST_FRAME],
) -> bool
    requires spelled { SpellsRaw (raw_frame raw.now) bytes.now }
    ensures same { traffic.new ≡ traffic.old }
    ensures value { result ≡ is_made_up liars.now traffic.old.frames keys.now bytes.now (raw_frame raw.now) }
{
    raw.to == keys.me().get()
        && !is_liar(liars, raw.from)
        && !traffic.has(bytes, room)
        && is_sealed(keys, raw, bytes)
}

/// Whether the bytes are one whole frame that is made up.
fn forges(
    liars: &[NodeNo],
    traffic: &mut Traffic,
    keys: &Keys,
    bytes: &[u8],
    room: &mut [u8; LONGEST_FRAME],
) -> bool
    ensures same { traffic.new ≡ traffic.old }
    ensures value { result ≡ forges liars.now traffic.old.frames keys.now bytes.now (split_of bytes.now) }
    ensures sealed { IsTrue result → bytes_as_sealed keys.now bytes.now ≡ bytes.now }
{
    match split(bytes) {
        Parted::Whole(raw) => {
            bytes.len() <= raw.length && is_made_up(liars, traffic, keys, &raw, bytes, room)
        }
        _ => false,
    }
}

/// Whether what comes to the node of a number, if there is one, is forged. Its tag is right then, so that the node need
/// not compute it again. The room is written over.
pub fn is_forged(
    liars: &[NodeNo],
    traffic: &mut Traffic,
    places: &[Place],
    to: NodeNo,
    bytes: &[u8],
    room: &mut [u8; LONGEST_FRAME],
) -> bool
    requires rested { (p : Place) → place_at to places.now ≡ Some p → IsRested p.core }
    ensures same { traffic.new ≡ traffic.old }
    ensures sealed { IsTrue result → bytes_as_sealed (schedule_ring to) bytes.now ≡ bytes.now }
    ensures value { result ≡ forged_at liars.now traffic.old.frames bytes.now (place_at to places.now) }
{
    match position_of(places, to) {
        Some(k) => {
            let place = &places[k];
            forges(liars, traffic, place.core.node().keys(), bytes, room)
        }
        None => false,
    }
}
