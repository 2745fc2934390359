ghost use Rattle.std.specs.Prelude.{◌≡◌, ◌↔◌, ℕ};
ghost use Rattle.xl_wire.specs.declared.frame.Frame.{Frame};
ghost use Rattle.xl_wire.specs.Frames.{decoded_of, SpellsFirst};

use crate::{Frame, Parted, WireRefusal, read_body, split};

/// What bytes begin with.
#[derive(Drop)]
pub enum Decoded<'a> {
    /// A frame, and how many bytes it has.
    Whole(Frame<'a>, usize),
    /// Nothing that is refused, and less than a frame: this many bytes lack, first of the length and then of the frame.
    Need(usize),
    Refused(WireRefusal),
}

/// Reads the first frame: what `split` splits off, with its body read.
pub fn decode(bytes: &[u8]) -> Decoded<'_>
    ensures exact { result ≡ decoded_of bytes.now }
    // What is read is what the first bytes spell.
    ensures whole { (f : Frame) (n : ℕ) → (result ≡ Decoded.Whole f n) ↔ SpellsFirst f n bytes.now }
{
    read(bytes)
}

fn read(bytes: &[u8]) -> Decoded<'_>
    ensures { result ≡ decoded_of bytes.now }
{
    match split(bytes) {
        Parted::Whole(raw) => match read_body(&raw) {
            Ok(body) => Decoded::Whole(
                Frame {
                    from: raw.from,
                    to: raw.to,
                    body,
                    tag: raw.tag,
                },
                raw.length,
            ),
            Err(refusal) => Decoded::Refused(refusal),
        },
        Parted::Need(lack) => Decoded::Need(lack),
        Parted::Refused(refusal) => Decoded::Refused(refusal),
    }
}
