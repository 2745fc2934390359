// Every frame that was sent, with the bytes of all of them in one vector.
ghost use Rattle.std.specs.Prelude.{◌≡◌, ◌≤◌, ◌<◌, ◌++◌, ◌∷◌, ℕ, [], Some, IfOk, IfSome, length, option_copied, slice_get, take, OnErr, OnOk};
ghost use Rattle.xl_wire.specs.Lengths.{longest_frame};
ghost use Rattle.xl_world.specs.Ends.{IsLonger};
ghost use Rattle.xl_world.specs.Forgeries.{was_sent};
ghost use Rattle.xl_world.specs.Indexes.{is_at};
ghost use Rattle.xl_world.specs.Sending.{address_in, body_said, said_to, sent_as};
ghost use Rattle.xl_world.specs.declared.frames.SentPlace.TheVariants.{Bytes as BytesThere, Said as SaidThere};
ghost use Rattle.xl_world.specs.Worlds.{IsKeptAt, IsPlace, IsWithin, frame_of_place};

use crate::Sent;
use crate::said::Said;
use crate::sent::{ADDRESS, is_same_to_others};
use std::alloc::Global;
use std::marker::Model;
use xl_base::{NodeNo, OutOfMemory};

/// Where what is kept of a frame stands among the bytes of all, and who sent it to whom.
#[derive(Clone, Copy)]
pub struct KeptBytes {
    begins: usize,
    length: u32,
    from: NodeNo,
    to: NodeNo,
    /// Its byte at `ADDRESS`. The one that is kept there may be another frame's.
    address: u8,
}

/// Where what a frame says stands among all that is said, and who sent it to whom.
#[derive(Clone, Copy)]
pub struct KeptSpeech {
    place: usize,
    from: NodeNo,
    to: NodeNo,
}

/// What is kept of a frame.
#[derive(Clone, Copy)]
pub enum SentPlace {
    Bytes(KeptBytes),
    Said(KeptSpeech),
}

impl SentPlace {
    fn is_between(&self, from: NodeNo, to: NodeNo) -> bool {
        match self {
            SentPlace::Bytes(kept) => kept.from == from && kept.to == to,
            SentPlace::Said(kept) => kept.from == from && kept.to == to,
        }
    }
}

/// The frames that were sent, in order, which contracts see as a list.
///
/// What a node says to several receivers is kept once. A drain goes receiver by receiver, so each frame is looked for
/// among those to the receiver before, in their order. Of most frames what they say is kept, and no bytes.
#[derive(Drop)]
pub struct SentFrames {
    places: Vec<SentPlace>,
    /// What is kept of each whose bytes are, one behind the other.
    bytes: Vec<u8>,
    said: Vec<Said>,
    cursor: Cursor,
}

/// Which frame the next one may be once more.
#[derive(Clone, Copy)]
struct Cursor {
    /// From which place on all frames have the last one's sender and receiver.
    turn: usize,
    /// The place of that frame.
    likely: usize,
}

impl Cursor {
    /// The next frame goes from the one to the other. The first one to another receiver is looked for where the frames to
    /// the last receiver begin.
    fn turn_to(&mut self, places: &[SentPlace], from: NodeNo, to: NodeNo) {
        if !ends_with(places, from, to) {
            self.likely = self.turn;
            self.turn = places.len();
        }
    }
}

impl Model for SentFrames {
    ghost use Rattle.std.specs.Prelude.{List};
    ghost use Rattle.xl_world.specs.Sending.{Sent as TheSent};

    ghost Value = { List TheSent };

    ghost use Rattle.xl_world.specs.Worlds.{AreWithin, frames_seen};

    ghost view = { frames_seen };

    ghost invariant = { λ f. AreWithin f };
}

impl SentFrames {
    /// Nothing was sent.
    pub(crate) fn new(alloc: Global) -> SentFrames
        ensures { result ≡ [] }
    {
        SentFrames {
            places: Vec::new(alloc),
            bytes: Vec::new(alloc),
            said: Vec::new(alloc),
            cursor: Cursor { turn: 0, likely: 0 },
        }
    }

    pub fn len(&self) -> usize
        ensures { result ≡ length self.now }
    {
        self.places.len()
    }

    /// The frame of a place, from 0 on.
    pub fn get(&self, place: usize) -> Option<Sent<'_>>
        ensures { result ≡ slice_get self.now place }
    {
        match place_at(&self.places, place) {
            Some(found) => Some(frame_of(&self.bytes, &self.said, found)),
            None => None,
        }
    }

    /// A frame is sent, of which these bytes are kept.
    pub(crate) fn push(&mut self, from: NodeNo, to: NodeNo, kept: &[u8]) -> Result<(), OutOfMemory>
        requires short { length kept.now ≤ longest_frame }
        ensures sent { OnOk result (self.new ≡ self.old ++ sent_as from to kept.now ∷ []) }
        ensures err { OnErr result (self.new ≡ self.old) }
    {
        self.cursor.turn_to(&self.places, from, to);
        let begins = keep(&mut self.bytes, &self.places, &mut self.cursor.likely, kept)?;
        let place = KeptBytes {
            begins,
            length: kept.len() as u32,
            from,
            to,
            address: address_of(kept),
        };
        self.places.push(SentPlace::Bytes(place))?;
        Ok(())
    }

    /// A frame is sent that says this.
    pub(crate) fn push_said(
        &mut self,
        from: NodeNo,
        to: NodeNo,
        said: &Said,
    ) -> Result<(), OutOfMemory>
        ensures sent { OnOk result (self.new ≡ self.old ++ said_to from to (body_said said.now) ∷ []) }
        ensures err { OnErr result (self.new ≡ self.old) }
    {
        self.cursor.turn_to(&self.places, from, to);
        let place = keep_said(&mut self.said, &self.places, &mut self.cursor.likely, said)?;
        self.places
            .push(SentPlace::Said(KeptSpeech { place, from, to }))?;
        Ok(())
    }

    /// No more frames are left than so many of the first. The bytes of the others stay, and nobody reads them.
    pub(crate) fn truncate(&mut self, count: usize)
        ensures { self.new ≡ take count self.old }
    {
        self.places.truncate(count);
    }
}

/// The frame of which this is kept.
fn frame_of<'a>(bytes: &'a [u8], all: &'a [Said], place: &SentPlace) -> Sent<'a>
    requires { IsPlace (length bytes.now) (length all.now) place.now }
    ensures { result ≡ frame_of_place bytes.now all.now place.now }
{
    match place {
        SentPlace::Bytes(kept) => {
            let ends = kept.begins + kept.length as usize;
            Sent::new(kept.from, kept.to, &bytes[kept.begins..ends], kept.address)
        }
        SentPlace::Said(kept) => Sent::saying(kept.from, kept.to, &all[kept.place]),
    }
}

fn place_at(places: &[SentPlace], place: usize) -> Option<&SentPlace>
    ensures { option_copied result ≡ slice_get places.now place }
{
    places.get(place)
}

/// Where the bytes of the frame of a place are kept, if they are.
fn bytes_at(places: &[SentPlace], place: usize) -> Option<KeptBytes>
    ensures { IfSome result (λ p. slice_get places.now place ≡ Some (BytesThere p)) }
{
    match place_at(places, place) {
        Some(SentPlace::Bytes(kept)) => Some(*kept),
        _ => None,
    }
}

/// Where what the frame of a place says is kept, if its bytes aren't.
fn said_at(places: &[SentPlace], place: usize) -> Option<KeptSpeech>
    ensures { IfSome result (λ p. slice_get places.now place ≡ Some (SaidThere p)) }
{
    match place_at(places, place) {
        Some(SentPlace::Said(kept)) => Some(*kept),
        _ => None,
    }
}

/// Where what a frame says is kept: where the likely frame says the same, and else behind all.
fn keep_said(
    all: &mut Vec<Said>,
    places: &[SentPlace],
    likely: &mut usize,
    said: &Said,
) -> Result<usize, OutOfMemory>
    requires within { (k : ℕ) (p : KeptSpeech) → slice_get places.now k ≡ Some (SaidThere p)
        → p.place < length all.old.items }
    ensures longer { IsLonger all.old.items all.new.items }
    ensures kept { IfOk result (λ place. slice_get all.new.items place ≡ Some said.now) }
{
    if let Some(place) = find_said(all, places, *likely, said) {
        *likely += 1;
        return Ok(place);
    }
    let place = all.len();
    all.push(*said)?;
    Ok(place)
}

/// Where what the frame of a place says is kept, if it says this.
fn find_said(all: &[Said], places: &[SentPlace], place: usize, said: &Said) -> Option<usize>
    requires within { (k : ℕ) (p : KeptSpeech) → slice_get places.now k ≡ Some (SaidThere p)
        → p.place < length all.now }
    ensures kept { IfSome result (λ at. slice_get all.now at ≡ Some said.now) }
    ensures within { IfSome result (λ at. place < length places.now) }
{
    let Some(found) = said_at(places, place) else {
        return None;
    };
    if all[found.place].is(said) {
        Some(found.place)
    } else {
        None
    }
}

/// Whether the last frame has this sender and this receiver.
fn ends_with(places: &[SentPlace], from: NodeNo, to: NodeNo) -> bool {
    match places.last() {
        Some(last) => last.is_between(from, to),
        None => false,
    }
}

/// The byte at the place of the address, if there are so many.
fn address_of(kept: &[u8]) -> u8
    ensures { result ≡ address_in kept.now }
{
    if ADDRESS < kept.len() {
        kept[ADDRESS]
    } else {
        0
    }
}

/// Where these bytes are kept: where the likely frame is, if it is the same but for its address, and else behind all.
fn keep(
    bytes: &mut Vec<u8>,
    places: &[SentPlace],
    likely: &mut usize,
    kept: &[u8],
) -> Result<usize, OutOfMemory>
    requires within { (k : ℕ) (p : KeptBytes) → slice_get places.now k ≡ Some (BytesThere p)
        → IsWithin (length bytes.old.items) p }
    ensures longer { IsLonger bytes.old.items bytes.new.items }
    ensures kept { IfOk result (λ begins. IsKeptAt bytes.new.items begins kept.now) }
{
    if let Some(begins) = find(bytes, places, *likely, kept) {
        *likely += 1;
        return Ok(begins);
    }
    let begins = bytes.len();
    bytes.extend_from_slice(kept)?;
    Ok(begins)
}

/// Where the frame of a place is kept, if it is this one but for its address.
fn find(bytes: &[u8], places: &[SentPlace], place: usize, kept: &[u8]) -> Option<usize>
    requires within { (k : ℕ) (p : KeptBytes) → slice_get places.now k ≡ Some (BytesThere p)
        → IsWithin (length bytes.now) p }
    ensures kept { IfSome result (λ begins. IsKeptAt bytes.now begins kept.now) }
    ensures within { IfSome result (λ begins. place < length places.now) }
{
    let Some(found) = bytes_at(places, place) else {
        return None;
    };
    let ends = found.begins + found.length as usize;
    if is_same_to_others(&bytes[found.begins..ends], kept) {
        Some(found.begins)
    } else {
        None
    }
}

/// Whether the frame of a place, from 0 on, is these bytes.
pub fn is_at(sent: &SentFrames, place: usize, bytes: &[u8]) -> bool
    ensures { result ≡ is_at sent.now place bytes.now }
{
    match sent.get(place) {
        Some(frame) => frame.is(bytes),
        None => false,
    }
}

/// Whether these bytes were sent.
pub fn was_sent(sent: &SentFrames, bytes: &[u8]) -> bool
    ensures { result ≡ was_sent sent.now bytes.now }
{
    for place in 0..sent.len() {
        if is_at(sent, place, bytes) {
            return true;
        }
    }
    false
}
