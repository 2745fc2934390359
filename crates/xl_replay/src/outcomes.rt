// What is written of one line of a schedule.
ghost use Rattle.std.specs.Prelude.{◌≡◌, ◌++◌, OnOk};
ghost use Rattle.std.specs.String.{string_bytes};
ghost use Rattle.xl_replay.specs.Texts.{how_text, outcome_line, outcome_lines};
ghost use Rattle.xl_replay.specs.Texts.{switched_line, built_line, full_line, preferred_line, heard_line};

use crate::words::push_values;
use std::alloc::Global;
use std::fmt::Write;
use xl_base::{LedgerId, NodeNo, OutOfMemory, Seq};
use xl_core::{Issued, Refusal, Report};
use xl_running::push_id;
use xl_sched::Reader;
use xl_world::Outcome;

fn push_switched(
    alloc: Global,
    text: &mut String,
    reader: &Reader,
    node: NodeNo,
    seq: Seq,
    id: &LedgerId,
) -> Result<(), OutOfMemory>
    ensures { OnOk result (string_bytes text.new
        ≡ string_bytes text.old ++ switched_line reader.now.names node seq id.now) }
{
    let number = node.get();
    write!(text, "switched {number} {seq} ")?;
    push_id(alloc, text, reader, id)?;
    text.push('\n')?;
    Ok(())
}

/// How a built ledger was validated.
pub fn push_how(text: &mut String, issued: &Issued) -> Result<(), OutOfMemory>
    ensures { OnOk result (string_bytes text.new ≡ string_bytes text.old ++ how_text issued.now) }
{
    match issued {
        Issued::Full => text.push_str("full")?,
        Issued::Partial => text.push_str("partial")?,
        Issued::Silent | Issued::Refused(_) => text.push_str("none")?,
    }
    Ok(())
}

fn push_built(
    alloc: Global,
    text: &mut String,
    reader: &Reader,
    node: NodeNo,
    seq: Seq,
    id: &LedgerId,
    issued: &Issued,
) -> Result<(), OutOfMemory>
    ensures { OnOk result (string_bytes text.new
        ≡ string_bytes text.old ++ built_line reader.now.names node seq id.now issued.now) }
{
    let number = node.get();
    write!(text, "built {number} {seq} ")?;
    push_id(alloc, text, reader, id)?;
    text.push(' ')?;
    push_how(text, issued)?;
    text.push('\n')?;
    Ok(())
}

fn push_refused(
    alloc: Global,
    text: &mut String,
    reader: &Reader,
    line: u64,
    node: NodeNo,
    refusal: &Refusal,
) -> Result<(), OutOfMemory>
    ensures { OnOk result (string_bytes text.new
        ≡ string_bytes text.old ++ outcome_line reader.now.names line (Outcome.Refused node refusal.now)) }
{
    let number = node.get();
    let code = refusal.code();
    write!(text, "refused {line} {number} {code} ")?;
    push_values(alloc, text, reader, refusal)?;
    text.push('\n')?;
    Ok(())
}

fn push_full(
    alloc: Global,
    text: &mut String,
    reader: &Reader,
    node: NodeNo,
    seq: Seq,
    id: &LedgerId,
) -> Result<(), OutOfMemory>
    ensures { OnOk result (string_bytes text.new
        ≡ string_bytes text.old ++ full_line reader.now.names node seq id.now) }
{
    let number = node.get();
    write!(text, "full {number} {seq} ")?;
    push_id(alloc, text, reader, id)?;
    text.push('\n')?;
    Ok(())
}

/// The ledger that a node prefers, if there is one.
fn push_preferred(
    alloc: Global,
    text: &mut String,
    reader: &Reader,
    node: NodeNo,
    ledger: &Option<Report>,
) -> Result<(), OutOfMemory>
    ensures { OnOk result (string_bytes text.new
        ≡ string_bytes text.old ++ preferred_line reader.now.names node ledger.now) }
{
    let number = node.get();
    let Some(Report { seq, id }) = ledger else {
        writeln!(text, "preferred {number} none")?;
        return Ok(());
    };
    write!(text, "preferred {number} {seq} ")?;
    push_id(alloc, text, reader, id)?;
    text.push('\n')?;
    Ok(())
}

/// What a node heard of the ledger that a member last reported, if it did.
fn push_heard(
    alloc: Global,
    text: &mut String,
    reader: &Reader,
    node: NodeNo,
    member: NodeNo,
    id: &Option<LedgerId>,
) -> Result<(), OutOfMemory>
    ensures { OnOk result (string_bytes text.new
        ≡ string_bytes text.old ++ heard_line reader.now.names node member id.now) }
{
    let (number, whose) = (node.get(), member.get());
    let Some(id) = id else {
        writeln!(text, "heard {number} {whose} none")?;
        return Ok(());
    };
    write!(text, "heard {number} {whose} ")?;
    push_id(alloc, text, reader, id)?;
    text.push('\n')?;
    Ok(())
}

fn push_outcome(
    alloc: Global,
    text: &mut String,
    reader: &Reader,
    line: u64,
    outcome: &Outcome,
) -> Result<(), OutOfMemory>
    ensures { OnOk result (string_bytes text.new
        ≡ string_bytes text.old ++ outcome_line reader.now.names line outcome.now) }
{
    match outcome {
        Outcome::Switched { node, seq, id } => {
            push_switched(alloc, text, reader, *node, *seq, id)
        }
        Outcome::Built {
            node,
            seq,
            id,
            issued,
        } => push_built(alloc, text, reader, *node, *seq, id, issued),
        Outcome::Refused { node, refusal } => push_refused(
            alloc, text, reader, line, *node, refusal,
        ),
        Outcome::Full { node, seq, id } => push_full(alloc, text, reader, *node, *seq, id),
        Outcome::Preferred { node, at } => push_preferred(alloc, text, reader, *node, at),
        Outcome::Heard { node, member, id } => {
            push_heard(alloc, text, reader, *node, *member, id)
        }
    }
}

/// What is written of the event in a line, a line each.
pub fn push_outcomes(
    alloc: Global,
    text: &mut String,
    reader: &Reader,
    line: u64,
    outcomes: &[Outcome],
) -> Result<(), OutOfMemory>
    ensures { OnOk result (string_bytes text.new
        ≡ string_bytes text.old ++ outcome_lines reader.now.names line outcomes.now) }
{
    for outcome in outcomes {
        push_outcome(alloc, text, reader, line, outcome)?;
    }
    Ok(())
}
