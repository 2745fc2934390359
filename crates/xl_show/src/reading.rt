// What the bytes of a frame that has begun show.
ghost use Rattle.std.specs.Prelude.{◌≡◌, [], IfOk, string_bytes};
ghost use Rattle.xl_show.specs.Reading.{IsSeen};

use crate::texts::{push_frame, push_refusal};
use std::alloc::Global;
use xl_base::OutOfMemory;
use xl_wire::{Decoded, decode};

/// What the bytes that have come begin with.
#[derive(Clone, Copy, PartialEq, Eq)]
pub enum Look {
    /// A frame of this many bytes.
    Frame(usize),
    /// Less than a frame: this many bytes lack, first of its length and then of it.
    Lacks(usize),
    /// No frame.
    Refused,
}

/// Looks at the bytes that begin at a place, and tells of a frame or of a refusal.
pub fn read(
    alloc: Global,
    place: usize,
    bytes: &[u8],
    text: &mut String,
) -> Result<Look, OutOfMemory>
    requires { string_bytes text.old ≡ [] }
    ensures { IfOk result (λ look. IsSeen look place bytes.now (string_bytes text.new)) }
{
    match decode(bytes) {
        Decoded::Whole(frame, length) => {
            push_frame(alloc, text, &frame)?;
            Ok(Look::Frame(length))
        }
        Decoded::Need(lack) => Ok(Look::Lacks(lack)),
        Decoded::Refused(refusal) => {
            push_refusal(text, place, refusal)?;
            Ok(Look::Refused)
        }
    }
}
