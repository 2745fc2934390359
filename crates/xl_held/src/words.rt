// Words of what a node holds, added to a text.
ghost use Rattle.std.specs.Prelude.{◌≡◌, ◌++◌, codes, decimal, OnOk};
ghost use Rattle.std.specs.String.{string_bytes};
ghost use Rattle.xl_running.specs.Texts.{newline, space};
ghost use Rattle.xl_held.specs.Lines.{number_line};
ghost use Rattle.xl_held.specs.Words.{
  issuing_text,
  last_text,
  mode_text,
  phase_text,
  position_text,
  relisted_text,
  report_text,
  row_text,
};

use xl_base::{NodeNo, OutOfMemory, Seq};
use xl_core::{LastReport, Report};
use xl_rounds::{Mode, Phase};
use xl_sched::Reader;
use xl_told::{Hashed, push_ledger, push_numbered, push_of, push_proposal, push_validation};
use xl_wire::{Proposal, Validation};

/// The beginning of a line: of which node it tells, and a word.
pub fn push_held(text: &mut String, node: NodeNo, word: &str) -> Result<(), OutOfMemory>
    ensures { OnOk result (string_bytes text.new ≡ string_bytes text.old ++ codes "held " ++ decimal node ++ word.now) }
{
    push_of(text, "held ", node)?;
    text.push_str(word)?;
    Ok(())
}

/// The end of a line: a number.
pub fn push_last_number(text: &mut String, number: u64) -> Result<(), OutOfMemory>
    ensures { OnOk result (string_bytes text.new ≡ string_bytes text.old ++ space ++ decimal number ++ newline) }
{
    push_numbered(text, " ", number)?;
    text.push('\n')?;
    Ok(())
}

/// A line of a word and a number.
pub fn push_number_line(
    text: &mut String,
    node: NodeNo,
    word: &str,
    number: u64,
) -> Result<(), OutOfMemory>
    ensures { OnOk result (string_bytes text.new ≡ string_bytes text.old ++ number_line node word.now number) }
{
    push_of(text, "held ", node)?;
    push_numbered(text, word, number)?;
    text.push('\n')?;
    Ok(())
}

pub fn push_issuing(text: &mut String, failed: &Option<Seq>) -> Result<(), OutOfMemory>
    ensures { OnOk result (string_bytes text.new ≡ string_bytes text.old ++ issuing_text failed.now) }
{
    match failed {
        Some(seq) => push_numbered(text, "off ", u64::from(*seq)),
        None => Ok(text.push_str("on")?),
    }
}

pub fn push_report(
    text: &mut String,
    reader: &Reader,
    hashed: &mut Hashed,
    report: &Option<Report>,
) -> Result<(), OutOfMemory>
    ensures { OnOk result (string_bytes text.new
        ≡ string_bytes text.old ++ report_text reader.now.names report.now) }
{
    let Some(Report { seq, id }) = report else {
        return Ok(text.push_str("none")?);
    };
    push_ledger(text, reader, hashed, *seq, id)
}

fn push_relisted(text: &mut String, relisted: bool) -> Result<(), OutOfMemory>
    ensures { OnOk result (string_bytes text.new ≡ string_bytes text.old ++ relisted_text relisted) }
{
    if relisted {
        text.push_str(" relisted")?;
    }
    Ok(())
}

pub fn push_last(
    text: &mut String,
    reader: &Reader,
    hashed: &mut Hashed,
    last: &LastReport,
) -> Result<(), OutOfMemory>
    ensures { OnOk result (string_bytes text.new ≡ string_bytes text.old ++ last_text reader.now.names last.now) }
{
    push_report(text, reader, hashed, &last.report)?;
    push_relisted(text, last.relisted)
}

pub fn push_row(
    text: &mut String,
    reader: &Reader,
    hashed: &mut Hashed,
    row: &Option<Validation>,
) -> Result<(), OutOfMemory>
    ensures { OnOk result (string_bytes text.new ≡ string_bytes text.old ++ row_text reader.now.names row.now) }
{
    match row {
        Some(validation) => push_validation(text, reader, hashed, validation),
        None => Ok(text.push_str("none")?),
    }
}

pub fn push_position(
    text: &mut String,
    reader: &Reader,
    hashed: &mut Hashed,
    position: &Option<Proposal>,
) -> Result<(), OutOfMemory>
    ensures { OnOk result (string_bytes text.new
        ≡ string_bytes text.old ++ position_text reader.now.names position.now) }
{
    match position {
        Some(proposal) => push_proposal(text, reader, hashed, proposal),
        None => Ok(text.push_str("none")?),
    }
}

pub fn push_phase(text: &mut String, phase: Phase) -> Result<(), OutOfMemory>
    ensures { OnOk result (string_bytes text.new ≡ string_bytes text.old ++ phase_text phase) }
{
    match phase {
        Phase::Open => text.push_str("open")?,
        Phase::Establish => text.push_str("establish")?,
        Phase::Accepted => text.push_str("accepted")?,
    }
    Ok(())
}

pub fn push_mode(text: &mut String, mode: Mode) -> Result<(), OutOfMemory>
    ensures { OnOk result (string_bytes text.new ≡ string_bytes text.old ++ mode_text mode) }
{
    match mode {
        Mode::Proposing => text.push_str("proposing")?,
        Mode::Observing => text.push_str("observing")?,
        Mode::SwitchedLedger => text.push_str("switched")?,
    }
    Ok(())
}
