ghost use Rattle.std.specs.Prelude.{◌≡◌, ◌≤◌, ◌++◌, length};
ghost use Rattle.xl_wire.specs.Raws.{RawFrame, SpellsRaw, raw_frame};
ghost use Rattle.xl_tags.specs.Sealing.{before_tag, sealed, IsToSeal, IsWhole};

use crate::keys::Keys;
use xl_base::NodeNo;
use xl_wire::{Parted, Raw, split};

/// Writes the tag into the last 32 bytes of a frame to this receiver: that of all bytes before it, under the key for the
/// receiver.
pub fn seal(keys: &Keys, to: NodeNo, frame: &mut [u8])
    requires { IsToSeal keys.now to frame.old }
    ensures sealed { (f : RawFrame) → SpellsRaw f frame.old → SpellsRaw (sealed keys.now f) frame.new }
    ensures kept { before_tag frame.new ≡ before_tag frame.old }
{
    let tag = keys.tag(to.get(), before_tag(frame));
    put_tag(frame, &tag);
}

/// All bytes of a frame except the 32 of its tag.
pub(crate) fn before_tag(bytes: &[u8]) -> &[u8]
    requires { 32 ≤ length bytes.now }
    ensures { result.now ≡ before_tag bytes.now }
{
    &bytes[..bytes.len() - 32]
}

fn put_tag(frame: &mut [u8], tag: &[u8; 32])
    requires { 32 ≤ length frame.old }
    ensures put { frame.new ≡ before_tag frame.old ++ tag.now }
    ensures long { length tag.now ≡ 32 }
{
    let end = frame.len() - 32;
    frame[end..].copy_from_slice(tag);
}

/// The frame that the bytes are.
pub(crate) fn whole(bytes: &[u8]) -> Raw<'_>
    requires { IsWhole bytes.now }
    ensures { SpellsRaw (raw_frame result) bytes.now }
{
    match split(bytes) {
        Parted::Whole(raw) => raw,
        _ => unreachable!(),
    }
}
