// The frames that were sent.
ghost use Rattle.std.specs.Prelude.{◌≡◌, ◌+◌, ◌++◌, codes, decimal, drop, List, OnOk};
ghost use Rattle.std.specs.String.{string_bytes};
ghost use Rattle.xl_running.specs.Texts.{space};
ghost use Rattle.xl_sched.specs.declared.named.Named.{Named};
ghost use Rattle.xl_tell.specs.Echoes.{AreEchoes};
ghost use Rattle.xl_tell.specs.Parts.{sent_line, sent_lines};
ghost use Rattle.xl_told.specs.Bodies.{body_text, said_text};
ghost use Rattle.xl_wire.specs.Frames.{decoded_of};
ghost use Rattle.xl_world.specs.Sending.{body_said, said_to, sent_as};

use crate::echo::Echoes;
use std::alloc::Global;
use xl_base::{NodeNo, OutOfMemory};
use xl_noted::Noted;
use xl_sched::Reader;
use xl_told::{Hashed, Lead, push_numbered, push_of};
use xl_wire::LONGEST_FRAME;
use xl_world::{Said, Sent, SentFrames};

/// What is kept to note nodes and to spell events and what frames say: a room for a frame, what was hashed last, the
/// first words of the last event that was taken apart, what frames said last, and what was noted last of a whole node.
#[derive(Drop)]
pub struct Speller {
    // A room of its own would be cleared for each frame.
    pub room: Box<[u8; LONGEST_FRAME]>,
    pub hashed: Hashed,
    pub lead: Lead,
    pub echoes: Echoes,
    // It has several vectors, whose memory serves again.
    pub spare: Option<Box<Noted>>,
}

impl Speller {
    /// Nothing was hashed yet. Refused only when memory runs out.
    pub fn open(alloc: Global) -> Result<Speller, OutOfMemory> {
        Ok(Speller {
            room: Box::new(alloc, [0; LONGEST_FRAME])?,
            hashed: Hashed::none(alloc)?,
            lead: Lead::of(alloc, 0, 0)?,
            echoes: Echoes::none(alloc),
            spare: None,
        })
    }
}

/// The frame between these two in which this is said has its words.
fn words_between(from: NodeNo, to: NodeNo, said: &Said)
    ensures { (names : List Named) → said_text names (decoded_of (said_to from to (body_said said.now)).bytes)
        ≡ body_text names (body_said said.now) }
{
    // What is said is a body, which fits into a frame.
    let _body = said.body();
}

/// What a frame says between these two that says this.
fn push_value(
    text: &mut String,
    reader: &Reader,
    speller: &mut Speller,
    from: NodeNo,
    to: NodeNo,
    said: &Said,
) -> Result<(), OutOfMemory>
    requires { AreEchoes reader.now.names speller.old.echoes }
    ensures echoes { OnOk result (AreEchoes reader.now.names speller.new.echoes) }
    ensures told { OnOk result (string_bytes text.new ≡ string_bytes text.old
        ++ said_text reader.now.names (decoded_of (said_to from to (body_said said.now)).bytes)) }
{
    words_between(from, to, said);
    speller
        .echoes
        .push(text, reader, &mut speller.hashed, said)?;
    Ok(())
}

/// What a frame says, of which these bytes are kept.
// It doesn't hang on the tag, which is long to compute.
fn push_kept(
    text: &mut String,
    reader: &Reader,
    echoes: &mut Echoes,
    hashed: &mut Hashed,
    frame: &Sent<'_>,
    kept: &[u8],
) -> Result<(), OutOfMemory>
    requires kept { frame.now ≡ sent_as frame.now.from frame.now.to kept.now }
    requires echoes { AreEchoes reader.now.names echoes.old }
    ensures echoes { OnOk result (AreEchoes reader.now.names echoes.new) }
    ensures told { OnOk result (string_bytes text.new
        ≡ string_bytes text.old ++ said_text reader.now.names (decoded_of frame.now.bytes)) }
{
    echoes.push_bytes(text, reader, hashed, kept)
}

/// What a frame says that is kept as bytes.
fn push_bytes(
    text: &mut String,
    reader: &Reader,
    speller: &mut Speller,
    frame: &Sent<'_>,
) -> Result<(), OutOfMemory>
    requires { AreEchoes reader.now.names speller.old.echoes }
    ensures echoes { OnOk result (AreEchoes reader.now.names speller.new.echoes) }
    ensures told { OnOk result (string_bytes text.new
        ≡ string_bytes text.old ++ said_text reader.now.names (decoded_of frame.now.bytes)) }
{
    let length = frame.put(&mut speller.room);
    let kept = &speller.room[..length];
    push_kept(
        text,
        reader,
        &mut speller.echoes,
        &mut speller.hashed,
        frame,
        kept,
    )?;
    Ok(())
}

/// What a frame says.
fn push_frame_said(
    text: &mut String,
    reader: &Reader,
    speller: &mut Speller,
    frame: &Sent<'_>,
) -> Result<(), OutOfMemory>
    requires { AreEchoes reader.now.names speller.old.echoes }
    ensures echoes { OnOk result (AreEchoes reader.now.names speller.new.echoes) }
    ensures told { OnOk result (string_bytes text.new
        ≡ string_bytes text.old ++ said_text reader.now.names (decoded_of frame.now.bytes)) }
{
    match frame.said() {
        Some(said) => {
            let (from, to) = (frame.from(), frame.to());
            push_value(text, reader, speller, from, to, said)
        }
        None => push_bytes(text, reader, speller, frame),
    }
}

/// The number of a frame, its sender and its receiver.
fn push_numbers(text: &mut String, number: usize, frame: &Sent<'_>) -> Result<(), OutOfMemory>
    ensures { OnOk result (string_bytes text.new ≡ string_bytes text.old
        ++ (codes "sent " ++ decimal number ++ space ++ decimal frame.now.from ++ space ++ decimal frame.now.to ++ space)) }
{
    push_numbered(text, "sent ", number as u64)?;
    push_of(text, " ", frame.from())?;
    push_of(text, " ", frame.to())?;
    text.push(' ')?;
    Ok(())
}

/// A frame of this number.
fn push_frame(
    text: &mut String,
    reader: &Reader,
    speller: &mut Speller,
    number: usize,
    frame: &Sent<'_>,
) -> Result<(), OutOfMemory>
    requires { AreEchoes reader.now.names speller.old.echoes }
    ensures echoes { OnOk result (AreEchoes reader.now.names speller.new.echoes) }
    ensures told { OnOk result (string_bytes text.new
        ≡ string_bytes text.old ++ sent_line reader.now.names number frame.now) }
{
    push_numbers(text, number, frame)?;
    push_frame_said(text, reader, speller, frame)?;
    text.push('\n')?;
    Ok(())
}

/// The frames from a place on.
fn push_frames(
    text: &mut String,
    reader: &Reader,
    speller: &mut Speller,
    sent: &SentFrames,
    before: usize,
) -> Result<(), OutOfMemory>
    ensures { OnOk result (string_bytes text.new
        ≡ string_bytes text.old ++ sent_lines reader.now.names (before + 1) (drop before sent.now)) }
{
    speller.echoes.forget(reader);
    for place in before..sent.len() {
        let Some(frame) = sent.get(place) else {
            unreachable!()
        };
        push_frame(text, reader, speller, place + 1, &frame)?;
    }
    Ok(())
}

/// The frames that were sent, except the first of this number.
pub fn push_sent(
    text: &mut String,
    reader: &Reader,
    speller: &mut Speller,
    sent: &SentFrames,
    before: usize,
) -> Result<(), OutOfMemory>
    ensures { OnOk result (string_bytes text.new
        ≡ string_bytes text.old ++ sent_lines reader.now.names (before + 1) (drop before sent.now)) }
{
    // Most events send nothing, and needn't forget what was said.
    if sent.len() <= before {
        return Ok(());
    }
    push_frames(text, reader, speller, sent, before)
}
