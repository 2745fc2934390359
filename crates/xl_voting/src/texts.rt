// The lines of `xl flags`, added to a text.
ghost use Rattle.std.specs.Prelude.{◌≡◌, ◌++◌, OnOk};
ghost use Rattle.std.specs.String.{string_bytes};
ghost use Rattle.xl_voting.specs.Texts.{amendment_text, count_line, flag_line, flag_lines, report_text};
ghost use Rattle.xl_running.specs.Texts.{newline};

use std::alloc::Global;
use std::fmt::Write;
use xl_base::{LedgerId, NodeNo, OutOfMemory, Seq, TxId};
use xl_flags::FlagLine;
use xl_running::push_id;
use xl_sched::Reader;

/// What a flag report says, line by line.
pub fn push_news(
    alloc: Global,
    text: &mut String,
    reader: &Reader,
    lines: &[FlagLine],
) -> Result<(), OutOfMemory>
    ensures { OnOk result (string_bytes text.new
        ≡ string_bytes text.old ++ flag_lines reader.now.names lines.now) }
{
    for line in lines {
        push_line(alloc, text, reader, line)?;
    }
    Ok(())
}

fn push_line(
    alloc: Global,
    text: &mut String,
    reader: &Reader,
    line: &FlagLine,
) -> Result<(), OutOfMemory>
    ensures { OnOk result (string_bytes text.new ≡ string_bytes text.old ++ flag_line reader.now.names line.now) }
{
    match line {
        FlagLine::Enabled(node, seq, id) => {
            text.push_str("enabled ")?;
            push_amendment(alloc, text, reader, *node, *seq, id)
        }
        FlagLine::Majority(node, seq, id) => {
            text.push_str("majority ")?;
            push_amendment(alloc, text, reader, *node, *seq, id)
        }
        FlagLine::Lost(node, seq, id) => {
            text.push_str("lost ")?;
            push_amendment(alloc, text, reader, *node, *seq, id)
        }
        FlagLine::Fee(node, seq, fee) => {
            text.push_str("fee ")?;
            push_report(text, *node, *seq)?;
            writeln!(text, "{fee}")?;
            Ok(())
        }
    }
}

/// The node and the sequence of a report, and an amendment.
fn push_amendment(
    alloc: Global,
    text: &mut String,
    reader: &Reader,
    node: NodeNo,
    seq: Seq,
    id: &TxId,
) -> Result<(), OutOfMemory>
    ensures { OnOk result (string_bytes text.new
        ≡ string_bytes text.old ++ report_text node seq ++ amendment_text reader.now.names id.now ++ newline) }
{
    push_report(text, node, seq)?;
    push_id(alloc, text, reader, &LedgerId(id.0))?;
    text.push('\n')?;
    Ok(())
}

/// The node and the sequence of a report.
fn push_report(text: &mut String, node: NodeNo, seq: Seq) -> Result<(), OutOfMemory>
    ensures { OnOk result (string_bytes text.new ≡ string_bytes text.old ++ report_text node seq) }
{
    let node = node.get();
    write!(text, "{node} {seq} ")?;
    Ok(())
}

/// How many flag reports there were.
pub fn push_count(text: &mut String, count: u64) -> Result<(), OutOfMemory>
    ensures { OnOk result (string_bytes text.new ≡ string_bytes text.old ++ count_line count) }
{
    writeln!(text, "flags {count}")?;
    Ok(())
}
