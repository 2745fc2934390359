// What a node last reported, and what it prefers.
ghost use Rattle.std.specs.Prelude.{◌≡◌, ◌++◌, OnOk};
ghost use Rattle.std.specs.String.{string_bytes};
ghost use Rattle.xl_held.specs.Changes.{reports_opened, reports_since, unless};
ghost use Rattle.xl_held.specs.Lines.{prefers_line, report_line};
ghost use Rattle.xl_noted.specs.Same.{is_same_last, is_same_report};

use crate::words::{push_held, push_last, push_report};
use xl_base::{NodeNo, OutOfMemory};
use xl_core::{LastReport, Node, Report};
use xl_noted::{is_same_last as has_same_last, is_same_report as has_same_report};
use xl_sched::Reader;
use xl_told::Hashed;
use xl_trie::Trie;

fn push_report_line(
    text: &mut String,
    reader: &Reader,
    hashed: &mut Hashed,
    number: NodeNo,
    last: &LastReport,
) -> Result<(), OutOfMemory>
    ensures { OnOk result (string_bytes text.new
        ≡ string_bytes text.old ++ report_line reader.now.names number last.now) }
{
    push_held(text, number, " report ")?;
    push_last(text, reader, hashed, last)?;
    text.push('\n')?;
    Ok(())
}

fn push_prefers_line(
    text: &mut String,
    reader: &Reader,
    hashed: &mut Hashed,
    number: NodeNo,
    ledger: &Option<Report>,
) -> Result<(), OutOfMemory>
    ensures { OnOk result (string_bytes text.new
        ≡ string_bytes text.old ++ prefers_line reader.now.names number ledger.now) }
{
    push_held(text, number, " prefers ")?;
    push_report(text, reader, hashed, ledger)?;
    text.push('\n')?;
    Ok(())
}

fn push_new_report(
    text: &mut String,
    reader: &Reader,
    hashed: &mut Hashed,
    number: NodeNo,
    before: &LastReport,
    last: &LastReport,
) -> Result<(), OutOfMemory>
    ensures { OnOk result (string_bytes text.new ≡ string_bytes text.old
        ++ unless (is_same_last before.now last.now) (report_line reader.now.names number last.now)) }
{
    if has_same_last(before, last) {
        return Ok(());
    }
    push_report_line(text, reader, hashed, number, last)
}

pub fn push_new_preference(
    text: &mut String,
    reader: &Reader,
    hashed: &mut Hashed,
    number: NodeNo,
    before: &Option<Report>,
    ledger: &Option<Report>,
) -> Result<(), OutOfMemory>
    ensures { OnOk result (string_bytes text.new ≡ string_bytes text.old
        ++ unless (is_same_report before.now ledger.now) (prefers_line reader.now.names number ledger.now)) }
{
    if has_same_report(before, ledger) {
        return Ok(());
    }
    push_prefers_line(text, reader, hashed, number, ledger)
}

/// Its last report and what it prefers, if they aren't these.
pub fn push_new_reports(
    text: &mut String,
    reader: &Reader,
    hashed: &mut Hashed,
    number: NodeNo,
    last: &LastReport,
    preferred: &Option<Report>,
    node: &Node<Trie>,
) -> Result<(), OutOfMemory>
    ensures { OnOk result (string_bytes text.new
        ≡ string_bytes text.old ++ reports_since reader.now.names number last.now preferred.now node.now) }
{
    push_new_report(text, reader, hashed, number, last, node.last())?;
    push_new_preference(text, reader, hashed, number, preferred, &node.preferred())
}

/// Its last report, and what it prefers.
pub fn push_reports(
    text: &mut String,
    reader: &Reader,
    hashed: &mut Hashed,
    number: NodeNo,
    node: &Node<Trie>,
) -> Result<(), OutOfMemory>
    ensures { OnOk result (string_bytes text.new
        ≡ string_bytes text.old ++ reports_opened reader.now.names number node.now) }
{
    push_report_line(text, reader, hashed, number, node.last())?;
    push_prefers_line(text, reader, hashed, number, &node.preferred())
}
