// A node's time, kept number, issuing and list.
ghost use Rattle.std.specs.Prelude.{◌≡◌, ◌==◌, ◌++◌, OnOk};
ghost use Rattle.std.specs.String.{string_bytes};
ghost use Rattle.xl_held.specs.Changes.{settings_changed, settings_opened, unless};
ghost use Rattle.xl_held.specs.Lines.{issuing_line, kept_line, list_line, number_line, time_line};
ghost use Rattle.xl_noted.specs.Same.{is_same_list, is_same_number};
ghost use Rattle.xl_noted.specs.Seen.{noted_seen};

use crate::words::{push_held, push_issuing, push_number_line};
use xl_base::{Millis, NodeNo, OutOfMemory, Seq};
use xl_core::Node;
use xl_lists::List;
use xl_noted::{Noted, is_same_list as has_same_list, is_same_number as has_same_number};
use xl_told::push_list;
use xl_trie::Trie;

fn push_issuing_line(
    text: &mut String,
    node: NodeNo,
    failed: &Option<Seq>,
) -> Result<(), OutOfMemory>
    ensures { OnOk result (string_bytes text.new ≡ string_bytes text.old ++ issuing_line node failed.now) }
{
    push_held(text, node, " issuing ")?;
    push_issuing(text, failed)?;
    text.push('\n')?;
    Ok(())
}

fn push_list_line(text: &mut String, node: NodeNo, list: &List) -> Result<(), OutOfMemory>
    ensures { OnOk result (string_bytes text.new ≡ string_bytes text.old ++ list_line node list.now) }
{
    push_held(text, node, " list ")?;
    push_list(text, list)?;
    text.push('\n')?;
    Ok(())
}

/// A number behind its word, if it is new.
fn push_new_number(
    text: &mut String,
    node: NodeNo,
    word: &str,
    before: u64,
    number: u64,
) -> Result<(), OutOfMemory>
    ensures { OnOk result (string_bytes text.new
        ≡ string_bytes text.old ++ unless (before == number) (number_line node word.now number)) }
{
    if before == number {
        return Ok(());
    }
    push_number_line(text, node, word, number)
}

/// Its time, if that is new.
pub fn push_new_time(
    text: &mut String,
    node: NodeNo,
    before: Millis,
    time: Millis,
) -> Result<(), OutOfMemory>
    ensures { OnOk result (string_bytes text.new
        ≡ string_bytes text.old ++ unless (before == time) (time_line node time)) }
{
    push_new_number(text, node, " time ", before, time)
}

pub fn push_new_kept(
    text: &mut String,
    node: NodeNo,
    before: Seq,
    kept: Seq,
) -> Result<(), OutOfMemory>
    ensures { OnOk result (string_bytes text.new
        ≡ string_bytes text.old ++ unless (before == kept) (kept_line node kept)) }
{
    push_new_number(text, node, " kept ", u64::from(before), u64::from(kept))
}

pub fn push_new_issuing(
    text: &mut String,
    node: NodeNo,
    before: &Option<Seq>,
    failed: &Option<Seq>,
) -> Result<(), OutOfMemory>
    ensures { OnOk result (string_bytes text.new ≡ string_bytes text.old
        ++ unless (is_same_number before.now failed.now) (issuing_line node failed.now)) }
{
    if has_same_number(before, failed) {
        return Ok(());
    }
    push_issuing_line(text, node, failed)
}

fn push_new_list(
    text: &mut String,
    node: NodeNo,
    before: &List,
    list: &List,
) -> Result<(), OutOfMemory>
    ensures { OnOk result (string_bytes text.new
        ≡ string_bytes text.old ++ unless (is_same_list before.now list.now) (list_line node list.now)) }
{
    if has_same_list(before, list) {
        return Ok(());
    }
    push_list_line(text, node, list)
}

/// What is new of its time, kept number, issuing and list.
pub fn push_new_settings(
    text: &mut String,
    number: NodeNo,
    before: &Noted,
    node: &Node<Trie>,
) -> Result<(), OutOfMemory>
    ensures { OnOk result (string_bytes text.new
        ≡ string_bytes text.old ++ settings_changed number (noted_seen before.now) node.now) }
{
    push_new_time(text, number, before.time, node.time())?;
    push_new_kept(text, number, before.kept, node.kept())?;
    push_new_issuing(text, number, &before.failed_save, &node.failed_save())?;
    push_new_list(text, number, &before.list, node.list())
}

/// Its time, kept number, issuing and list.
pub fn push_settings(
    text: &mut String,
    number: NodeNo,
    node: &Node<Trie>,
) -> Result<(), OutOfMemory>
    ensures { OnOk result (string_bytes text.new ≡ string_bytes text.old ++ settings_opened number node.now) }
{
    push_number_line(text, number, " time ", node.time())?;
    push_number_line(text, number, " kept ", u64::from(node.kept()))?;
    push_issuing_line(text, number, &node.failed_save())?;
    push_list_line(text, number, node.list())
}
