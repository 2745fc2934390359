// The line of an event, added to a text.
ghost use Rattle.std.specs.Prelude.{◌≡◌, ◌++◌, codes, decimal, OnOk};
ghost use Rattle.std.specs.String.{string_bytes};
ghost use Rattle.xl_running.specs.Texts.{space};
ghost use Rattle.xl_told.specs.Events.{ask_text, event_line, held_text, lied_text, what_text};
ghost use Rattle.xl_told.specs.Words.{fullness_text};
ghost use Rattle.hex.specs.Hex.{encode_lower};
ghost use Rattle.xl_running.specs.Texts.{id_text};
ghost use Rattle.xl_sched.specs.declared.event.What.TheVariants.{List as IsList, Raw as IsRaw};

use crate::hashed::Hashed;
use crate::leads::Lead;
use crate::words::{
    push_fullness, push_id, push_ids, push_list, push_numbered, push_of, push_proposal, push_tx,
    push_validation,
};
use xl_base::{LedgerId, NodeNo, OutOfMemory, Seq};
use xl_sched::{Ask, Event, Lied, Reader, What, printed_token};

fn push_issue(
    text: &mut String,
    reader: &Reader,
    hashed: &mut Hashed,
    node: NodeNo,
    seq: Seq,
    id: &LedgerId,
    full: bool,
) -> Result<(), OutOfMemory>
    ensures { OnOk result (string_bytes text.new
        ≡ string_bytes text.old ++ ask_text reader.now.names (Ask.Issue node seq id.now full)) }
{
    push_of(text, "issue ", node)?;
    push_numbered(text, " ", u64::from(seq))?;
    text.push(' ')?;
    push_id(text, reader, hashed, id)?;
    text.push(' ')?;
    push_fullness(text, full)
}

/// What a node is asked.
fn push_ask(
    text: &mut String,
    reader: &Reader,
    hashed: &mut Hashed,
    ask: &Ask,
) -> Result<(), OutOfMemory>
    ensures { OnOk result (string_bytes text.new ≡ string_bytes text.old ++ ask_text reader.now.names ask.now) }
{
    match ask {
        Ask::Issue {
            node,
            seq,
            id,
            full,
        } => push_issue(text, reader, hashed, *node, *seq, id, *full),
        Ask::Timer { node } => push_of(text, "timer ", *node),
    }
}

/// What a liar says.
fn push_lied(
    text: &mut String,
    reader: &Reader,
    hashed: &mut Hashed,
    lied: &Lied,
) -> Result<(), OutOfMemory>
    ensures { OnOk result (string_bytes text.new ≡ string_bytes text.old ++ lied_text reader.now.names lied.now) }
{
    match lied {
        Lied::Proposal(proposal) => {
            text.push_str("proposal ")?;
            push_proposal(text, reader, hashed, proposal)
        }
        Lied::Validation(validation) => {
            text.push_str("validation ")?;
            push_validation(text, reader, hashed, validation)
        }
        Lied::Header { name, .. } => {
            text.push_str("header ")?;
            printed_token(name.as_slice(), text)
        }
        Lied::TxSet(ids) => {
            text.push_str("set ")?;
            push_ids(text, reader, hashed, ids.as_slice())
        }
        Lied::Tx(tx) => {
            text.push_str("tx ")?;
            push_tx(text, reader, hashed, tx)
        }
    }
}

/// The word of the number that a disk then holds.
fn push_held(text: &mut String, new: bool) -> Result<(), OutOfMemory>
    ensures { OnOk result (string_bytes text.new ≡ string_bytes text.old ++ held_text new) }
{
    if new {
        text.push_str("new")?;
    } else {
        text.push_str("old")?;
    }
    Ok(())
}

/// A disturbed save, and what is asked.
fn push_save(
    text: &mut String,
    reader: &Reader,
    hashed: &mut Hashed,
    word: &str,
    new: bool,
    ask: &Ask,
) -> Result<(), OutOfMemory>
    ensures { OnOk result (string_bytes text.new
        ≡ string_bytes text.old ++ word.now ++ held_text new ++ space ++ ask_text reader.now.names ask.now) }
{
    text.push_str(word)?;
    push_held(text, new)?;
    text.push(' ')?;
    push_ask(text, reader, hashed, ask)
}

/// Bytes that are handed to a node.
fn push_raw(text: &mut String, hashed: &Hashed, to: NodeNo, bytes: &[u8]) -> Result<(), OutOfMemory>
    ensures { OnOk result (string_bytes text.new
        ≡ string_bytes text.old ++ codes "raw " ++ decimal to ++ space ++ encode_lower bytes.now) }
{
    push_of(text, "raw ", to)?;
    text.push(' ')?;
    hashed.push_bytes(text, bytes)
}

/// What a liar says to a node.
fn push_lie(
    text: &mut String,
    reader: &Reader,
    hashed: &mut Hashed,
    from: NodeNo,
    to: NodeNo,
    lied: &Lied,
) -> Result<(), OutOfMemory>
    ensures { OnOk result (string_bytes text.new ≡ string_bytes text.old ++ codes "lie " ++ decimal from ++ space
        ++ decimal to ++ space ++ lied_text reader.now.names lied.now) }
{
    push_of(text, "lie ", from)?;
    push_of(text, " ", to)?;
    text.push(' ')?;
    push_lied(text, reader, hashed, lied)
}

/// What happens.
fn push_what(
    text: &mut String,
    reader: &Reader,
    hashed: &mut Hashed,
    what: &What,
) -> Result<(), OutOfMemory>
    ensures { OnOk result (string_bytes text.new ≡ string_bytes text.old ++ what_text reader.now.names what.now) }
{
    match what {
        What::Ask(ask) => push_ask(text, reader, hashed, ask),
        What::Timers => Ok(text.push_str("timers")?),
        What::Submit { node, tx } => {
            push_of(text, "submit ", *node)?;
            text.push(' ')?;
            push_tx(text, reader, hashed, tx)
        }
        What::Deliver { place } => push_numbered(text, "deliver ", *place),
        What::All => Ok(text.push_str("all")?),
        What::Drop => Ok(text.push_str("drop")?),
        What::Greet { node, peer } => {
            push_of(text, "greet ", *node)?;
            push_of(text, " ", *peer)
        }
        What::Restart { node } => push_of(text, "restart ", *node),
        What::Cut { new, ask } => push_save(text, reader, hashed, "cut ", *new, ask),
        What::Fail { new, ask } => push_save(text, reader, hashed, "fail ", *new, ask),
        What::List { node, list } => {
            push_of(text, "list ", *node)?;
            text.push(' ')?;
            push_list(text, list)
        }
        What::Lie { from, to, what } => push_lie(text, reader, hashed, *from, *to, what),
        What::Raw { to, bytes } => push_raw(text, hashed, *to, bytes.as_slice()),
        What::Prefer { node } => push_of(text, "prefer ", *node),
        What::Heard { node } => push_of(text, "heard ", *node),
    }
}

/// The event, or the part of one, that stands in a line of the schedule.
pub fn push_event(
    text: &mut String,
    reader: &Reader,
    hashed: &mut Hashed,
    lead: &Lead,
    line: u64,
    event: &Event,
) -> Result<(), OutOfMemory>
    ensures { OnOk result (string_bytes text.new
        ≡ string_bytes text.old ++ event_line reader.now.names line event.now) }
{
    lead.push(text, line, event.at)?;
    push_what(text, reader, hashed, &event.what)?;
    text.push('\n')?;
    Ok(())
}
