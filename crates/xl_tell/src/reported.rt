// What the report says of a part of an event.
ghost use Rattle.std.specs.Prelude.{◌≡◌, ◌++◌, ◌∷◌, [], List, codes, decimal, IfSome, OnOk};
ghost use Rattle.std.specs.String.{string_bytes};
ghost use Rattle.xl_replay.specs.Texts.{built_line, full_line, outcome_lines, values_text};
ghost use Rattle.xl_running.specs.Texts.{id_text, newline, space};
ghost use Rattle.xl_sched.specs.declared.named.Named.{Named};

use std::alloc::Global;
use xl_base::{LedgerId, NodeNo, OutOfMemory, Seq};
use xl_core::{Issued, Refusal};
use xl_ledger::AddRefusal;
use xl_replay::{push_how, push_outcomes};
use xl_sched::Reader;
use xl_told::{Hashed, push_id, push_numbered, push_of};
use xl_world::Outcome;

/// The ledger that a refusal names, if it names nothing else.
fn ledger_in(refusal: &Refusal) -> Option<&LedgerId>
    ensures { (names : List Named) → IfSome result (λ id. values_text names refusal.now ≡ id_text names id.now) }
{
    match refusal {
        Refusal::Header(AddRefusal::Known(id) | AddRefusal::Orphan(id))
        | Refusal::Repeat(id)
        | Refusal::Conflict(id)
        | Refusal::WrongPrev(id) => Some(id),
        _ => None,
    }
}

/// A refusal with this number that names a ledger. The digits of its id are kept.
fn push_refused(
    text: &mut String,
    reader: &Reader,
    hashed: &mut Hashed,
    node: NodeNo,
    code: u32,
    id: &LedgerId,
) -> Result<(), OutOfMemory>
    ensures { OnOk result (string_bytes text.new ≡ string_bytes text.old
        ++ codes "refused " ++ decimal reader.now.lines ++ space ++ decimal node ++ space ++ decimal code ++ space
        ++ id_text reader.now.names id.now ++ newline) }
{
    push_numbered(text, "refused ", reader.lines())?;
    push_of(text, " ", node)?;
    push_numbered(text, " ", u64::from(code))?;
    text.push(' ')?;
    push_id(text, reader, hashed, id)?;
    text.push('\n')?;
    Ok(())
}

/// A ledger that a node reported. The digits of its id are kept.
fn push_full(
    text: &mut String,
    reader: &Reader,
    hashed: &mut Hashed,
    node: NodeNo,
    seq: Seq,
    id: &LedgerId,
) -> Result<(), OutOfMemory>
    ensures { OnOk result (string_bytes text.new
        ≡ string_bytes text.old ++ full_line reader.now.names node seq id.now) }
{
    push_of(text, "full ", node)?;
    push_numbered(text, " ", u64::from(seq))?;
    text.push(' ')?;
    push_id(text, reader, hashed, id)?;
    text.push('\n')?;
    Ok(())
}

/// A ledger that a node built. The digits of its id are kept.
fn push_built(
    text: &mut String,
    reader: &Reader,
    hashed: &mut Hashed,
    node: NodeNo,
    seq: Seq,
    id: &LedgerId,
    issued: &Issued,
) -> Result<(), OutOfMemory>
    ensures { OnOk result (string_bytes text.new
        ≡ string_bytes text.old ++ built_line reader.now.names node seq id.now issued.now) }
{
    push_of(text, "built ", node)?;
    push_numbered(text, " ", u64::from(seq))?;
    text.push(' ')?;
    push_id(text, reader, hashed, id)?;
    text.push(' ')?;
    push_how(text, issued)?;
    text.push('\n')?;
    Ok(())
}

/// What is said of one outcome, which is all of these.
fn push_alone(
    alloc: Global,
    text: &mut String,
    reader: &Reader,
    hashed: &mut Hashed,
    outcome: &Outcome,
    all: &[Outcome],
) -> Result<(), OutOfMemory>
    requires { all.now ≡ outcome.now ∷ [] }
    ensures { OnOk result (string_bytes text.new
        ≡ string_bytes text.old ++ outcome_lines reader.now.names reader.now.lines all.now) }
{
    match outcome {
        Outcome::Refused { node, refusal } => {
            if let Some(id) = ledger_in(refusal) {
                return push_refused(text, reader, hashed, *node, refusal.code(), id);
            }
        }
        Outcome::Full { node, seq, id } => {
            return push_full(text, reader, hashed, *node, *seq, id);
        }
        Outcome::Built {
            node,
            seq,
            id,
            issued,
        } => return push_built(text, reader, hashed, *node, *seq, id, issued),
        _ => {}
    }
    push_outcomes(alloc, text, reader, reader.lines(), all)
}

/// What the report says of the last line that was read.
pub fn push_reported(
    alloc: Global,
    text: &mut String,
    reader: &Reader,
    hashed: &mut Hashed,
    outcomes: &[Outcome],
) -> Result<(), OutOfMemory>
    ensures { OnOk result (string_bytes text.new
        ≡ string_bytes text.old ++ outcome_lines reader.now.names reader.now.lines outcomes.now) }
{
    match outcomes {
        // Of most parts it says nothing.
        [] => Ok(()),
        [outcome] => push_alone(alloc, text, reader, hashed, outcome, outcomes),
        _ => push_outcomes(alloc, text, reader, reader.lines(), outcomes),
    }
}
