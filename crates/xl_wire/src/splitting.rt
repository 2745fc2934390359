ghost use Rattle.std.specs.Prelude.{◌≡◌, ◌↔◌, ◌≤◌, None, length, take};
ghost use Rattle.xl_wire.specs.Heads.{head_refusal, lacking, length_in, raw_in, split_of, parts, Split};
ghost use Rattle.xl_wire.specs.Kinds.{span};
ghost use Rattle.xl_wire.specs.Raws.{RawFrame, SpellsRaw, raw_frame};

use crate::kinds::{can_have, is_kind, is_version};
use crate::lengths::{AROUND, HEAD, TAG};
use crate::{Raw, WireRefusal};
use byteorder::{BigEndian, ByteOrder};
use xl_base::bytes_at;

/// What bytes begin with.
#[derive(Clone, Copy)]
pub enum Parted<'a> {
    /// A whole frame.
    Whole(Raw<'a>),
    /// Nothing that is refused, and less than a frame: this many bytes lack, first of the length and then of the frame.
    Need(usize),
    /// No frame begins so: Magic, Version, Kind or Length.
    Refused(WireRefusal),
}

/// Splits the first frame off.
///
/// Bytes are refused as soon as those that are there show it.
pub fn split(bytes: &[u8]) -> Parted<'_>
    ensures exact { parts result ≡ split_of bytes.now }
    // What is split off is what the first bytes spell.
    ensures whole { (f : RawFrame) → (parts result ≡ Split.Whole f) ↔ SpellsRaw f (take (span f.body) bytes.now) }
{
    part(bytes)
}

fn part(bytes: &[u8]) -> Parted<'_>
    ensures { parts result ≡ split_of bytes.now }
{
    if let Some(refusal) = refused(bytes) {
        return Parted::Refused(refusal);
    }
    match lacking(bytes) {
        0 => Parted::Whole(whole(bytes)),
        lack => Parted::Need(lack),
    }
}

/// The frame, now that it is there.
fn whole(bytes: &[u8]) -> Raw<'_>
    requires lawful { head_refusal bytes.now ≡ None }
    requires long { lacking bytes.now ≡ 0 }
    ensures { raw_frame result ≡ raw_in bytes.now }
{
    let end = HEAD + body_length(bytes) as usize;
    Raw {
        version: bytes[2],
        kind: bytes[3],
        from: BigEndian::read_u32(&bytes[6..]),
        to: BigEndian::read_u32(&bytes[10..]),
        body: &bytes[HEAD..end],
        tag: bytes_at(bytes, end),
        length: end + TAG,
    }
}

/// How many bytes lack of the length, or once that is there of the frame.
fn lacking(bytes: &[u8]) -> usize
    ensures { result ≡ lacking bytes.now }
{
    if bytes.len() < 6 {
        return 6 - bytes.len();
    }
    let length = AROUND + body_length(bytes) as usize;
    length.saturating_sub(bytes.len())
}

/// The first cause that the bytes show.
fn refused(bytes: &[u8]) -> Option<WireRefusal>
    ensures { result ≡ head_refusal bytes.now }
{
    if bytes.len() > 0 && bytes[0] != 0x58 {
        return Some(WireRefusal::Magic(0));
    }
    if bytes.len() > 1 && bytes[1] != 0x4C {
        return Some(WireRefusal::Magic(1));
    }
    if bytes.len() > 2 && !is_version(bytes[2]) {
        return Some(WireRefusal::Version(bytes[2]));
    }
    if bytes.len() > 3 && !is_kind(bytes[2], bytes[3]) {
        return Some(WireRefusal::Kind(bytes[3]));
    }
    if bytes.len() > 5 {
        let length = body_length(bytes);
        if !can_have(bytes[2], bytes[3], length) {
            return Some(WireRefusal::Length {
                kind: bytes[3],
                length,
            });
        }
    }
    None
}

fn body_length(bytes: &[u8]) -> u16
    requires { 6 ≤ length bytes.now }
    ensures { result ≡ length_in bytes.now }
{
    BigEndian::read_u16(&bytes[4..])
}
