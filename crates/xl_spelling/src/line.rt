ghost use Rattle.std.specs.Prelude.{◌≡◌, ◌++◌, OnOk, OnErr};
ghost use Rattle.std.specs.List.{join_with_byte};
ghost use Rattle.xl_spelling.specs.Spellings.{line_words, spelling, IsSaidAgain, IsSaidPlainly};
ghost use Rattle.xl_spelling.specs.Stored.{IsStored};

use crate::entries::push_members;
use crate::event::{push_of, push_what, push_word};
use crate::tokens::{push, push_id, push_number};
use xl_base::{NodeNo, OutOfMemory};
use xl_lists::List;
use xl_sched::Line;

/// Appends the spelling of a line, without a byte that ends it. If memory runs out, nothing is appended.
///
/// Where some bytes say the line to a reader, the spelling says it to a reader in the same state; so it has at most
/// 17,000 bytes. No byte below 32 is in it that isn't in those.
pub fn print_line(line: &Line, room: &mut Vec<u8>) -> Result<(), OutOfMemory>
    ensures spelled { OnOk result (room.new.items ≡ room.old.items ++ spelling line.now) }
    ensures kept { OnErr result (room.new.items ≡ room.old.items) }
    ensures same { OnOk result (IsSaidAgain line.now) }
    ensures plain { OnOk result (IsSaidPlainly line.now) }
{
    let mut text = Vec::new(*room.allocator());
    push_line(&mut text, line)?;
    room.extend_from_slice(&text)?;
    Ok(())
}

fn push_line(room: &mut Vec<u8>, line: &Line) -> Result<(), OutOfMemory>
    ensures text { OnOk result (room.new.items ≡ room.old.items ++ join_with_byte 32 (line_words line.now)) }
    ensures stored { OnOk result (IsStored line.now) }
{
    match line {
        Line::Limit(limit) => {
            push_word(room, b"limit")?;
            push_number(room, b' ', u64::from(*limit))
        }
        Line::Speak(version) => {
            push_word(room, b"speak")?;
            push_number(room, b' ', u64::from(*version))
        }
        Line::Node {
            me,
            list,
            validating,
        } => push_node(room, *me, list, *validating),
        Line::Liar(me) => push_of(room, b"liar", *me),
        Line::Name { name, id } => {
            push_word(room, b"name")?;
            push(room, b' ', name.as_slice())?;
            push_id(room, b' ', id)
        }
        Line::Ledger {
            name,
            parent,
            header,
        } => {
            push_word(room, b"ledger")?;
            push(room, b' ', name.as_slice())?;
            push(room, b' ', parent.as_slice())?;
            push_number(room, b' ', u64::from(header.close))
        }
        Line::At(at) => {
            push_word(room, b"at")?;
            push_number(room, b' ', *at)
        }
        Line::Event(event) => push_what(room, &event.what),
    }
}

fn push_node(
    room: &mut Vec<u8>,
    me: NodeNo,
    list: &List,
    validating: bool,
) -> Result<(), OutOfMemory>
    ensures { OnOk result
        (room.new.items ≡ room.old.items ++ join_with_byte 32 (line_words (Line.Node me list.now validating))) }
{
    push_of(room, b"node", me)?;
    push_number(room, b' ', u64::from(list.quorum()))?;
    push_members(room, list.members())?;
    if validating {
        Ok(())
    } else {
        push(room, b' ', b"observing")
    }
}
