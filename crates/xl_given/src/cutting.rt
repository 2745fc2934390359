// Frames that stand one behind the other.
ghost use Rattle.std.specs.Prelude.{◌≡◌, ◌++◌, ◌≤◌, None, IfSome, OnOk, length, take};
ghost use Rattle.xl_given.specs.Cutting.{noted_from};
ghost use Rattle.xl_given.specs.Kept.{IsFirst, HasNoFirst};

use crate::NotedFrames;
use xl_base::{NodeNo, OutOfMemory};
use xl_wire::{Parted, split};

fn front(bytes: &[u8], count: usize) -> &[u8]
    requires { count ≤ length bytes.now }
    ensures { result.now ≡ take count bytes.now }
{
    &bytes[..count]
}

/// The frame with which the bytes begin.
fn first_frame(bytes: &[u8]) -> Option<&[u8]>
    ensures some { IfSome result (λ frame. IsFirst bytes.now frame.now) }
    ensures none { result ≡ None → HasNoFirst bytes.now }
{
    match split(bytes) {
        Parted::Whole(raw) => Some(front(bytes, raw.length)),
        _ => None,
    }
}

/// An entry of a journal has each frame that stands in these bytes. What stands behind the last whole one is left out.
pub fn push_each(
    frames: &mut NotedFrames,
    member: NodeNo,
    journal: u32,
    entry: u64,
    bytes: &[u8],
) -> Result<(), OutOfMemory>
    ensures { OnOk result (frames.new ≡ frames.old ++ noted_from member journal entry bytes.now) }
{
    let mut at = 0;
    while let Some(frame) = first_frame(&bytes[at..]) {
        frames.push(member, journal, entry, frame)?;
        at += frame.len();
    }
    Ok(())
}
