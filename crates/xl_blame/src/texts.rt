// The lines, added to a text.
ghost use Rattle.std.specs.Prelude.{◌≡◌, ◌++◌, OnOk, map, decimal};
ghost use Rattle.std.specs.List.{flat_map};
ghost use Rattle.std.specs.String.{string_bytes};
ghost use Rattle.hex.specs.Hex.{encode_lower};
ghost use Rattle.xl_audit.specs.Journals.{members_text, other_text};
ghost use Rattle.xl_forks.specs.Forks.{fork_seen};
ghost use Rattle.xl_blame.specs.Texts.{blame_line, fork_line, heard_line, journal_line, judged_text, keys_line, list_text, place_text, report_text, said_text, twice_line};

use crate::networks::Mixed;
use crate::summary::Tally;
use std::alloc::Global;
use std::fmt::Write;
use xl_base::{LedgerId, NodeNo, OutOfMemory};
use xl_forks::{Equivocation, Fork, Reported, Said};
use xl_lists::List;
use xl_shown::{End, Judged};

fn push_judged(text: &mut String, judged: &Judged) -> Result<(), OutOfMemory>
    ensures { OnOk result (string_bytes text.new ≡ string_bytes text.old ++ judged_text judged.now) }
{
    match judged {
        Judged::Yes(entries) => {
            let entries = *entries;
            write!(text, "yes {entries}")?;
        }
        Judged::No(place) => {
            let place = *place;
            write!(text, "no {place}")?;
        }
    }
    Ok(())
}

/// How a journal was judged.
pub fn push_journal(text: &mut String, number: u32, end: &End) -> Result<(), OutOfMemory>
    ensures { OnOk result (string_bytes text.new ≡ string_bytes text.old ++ journal_line number end.now) }
{
    let me = end.keys.keys().me().get();
    write!(text, "journal {number} {me} ")?;
    push_judged(text, &end.judged)?;
    text.push('\n')?;
    Ok(())
}

/// Two journals that are not of one network.
fn push_keys(text: &mut String, mixed: &Mixed) -> Result<(), OutOfMemory>
    ensures { OnOk result (string_bytes text.new ≡ string_bytes text.old ++ keys_line mixed.now) }
{
    let (one, other) = (mixed.one, mixed.other);
    writeln!(text, "keys {one} {other}")?;
    Ok(())
}

pub fn push_all_keys(text: &mut String, all: &[Mixed]) -> Result<(), OutOfMemory>
    ensures { OnOk result (string_bytes text.new ≡ string_bytes text.old ++ flat_map keys_line all.now) }
{
    for mixed in all {
        push_keys(text, mixed)?;
    }
    Ok(())
}

pub fn push_id(alloc: Global, text: &mut String, id: &LedgerId) -> Result<(), OutOfMemory>
    ensures { OnOk result (string_bytes text.new ≡ string_bytes text.old ++ encode_lower id.now.0) }
{
    let digits = hex::encode(alloc, id.0.as_slice())?;
    text.push_str(digits.as_str())?;
    Ok(())
}

/// Members, each behind a comma.
fn push_others(text: &mut String, others: &[NodeNo]) -> Result<(), OutOfMemory>
    ensures { OnOk result (string_bytes text.new ≡ string_bytes text.old ++ flat_map other_text others.now) }
{
    for other in others {
        let number = other.get();
        write!(text, ",{number}")?;
    }
    Ok(())
}

/// Members, joined by commas.
fn push_members(text: &mut String, members: &[NodeNo]) -> Result<(), OutOfMemory>
    ensures { OnOk result (string_bytes text.new ≡ string_bytes text.old ++ members_text members.now) }
{
    match members {
        [] => Ok(()),
        [first, others @ ..] => {
            let number = first.get();
            write!(text, "{number}")?;
            push_others(text, others)
        }
    }
}

#[tactic(auto, unfolding(crate::specs::Texts::list_text))]
fn push_list(text: &mut String, list: &List) -> Result<(), OutOfMemory>
    ensures { OnOk result (string_bytes text.new ≡ string_bytes text.old ++ list_text list.now) }
{
    let quorum = list.quorum();
    write!(text, "{quorum} ")?;
    push_members(text, list.members())
}

/// An entry of a journal, and what stands in it is of this ledger.
#[tactic(auto, unfolding(crate::specs::Texts::place_text))]
fn push_place(
    alloc: Global,
    text: &mut String,
    journal: u32,
    entry: u64,
    id: &LedgerId,
) -> Result<(), OutOfMemory>
    ensures { OnOk result (string_bytes text.new ≡ string_bytes text.old ++ place_text journal entry id.now) }
{
    write!(text, "{journal} {entry} ")?;
    push_id(alloc, text, id)
}

#[tactic(auto, unfolding(crate::specs::Texts::report_text))]
fn push_report(alloc: Global, text: &mut String, report: &Reported) -> Result<(), OutOfMemory>
    ensures { OnOk result (string_bytes text.new ≡ string_bytes text.old ++ report_text report.now) }
{
    push_place(alloc, text, report.journal, report.entry, &report.id)?;
    text.push(' ')?;
    push_list(text, &report.list)
}

/// Two reports that differ.
fn push_fork(alloc: Global, text: &mut String, fork: &Fork<'_>) -> Result<(), OutOfMemory>
    ensures { OnOk result (string_bytes text.new ≡ string_bytes text.old ++ fork_line (fork_seen fork.now)) }
{
    let (seq, least, shown) = (fork.one.seq, fork.least, fork.shown);
    write!(text, "fork {seq} ")?;
    push_report(alloc, text, fork.one)?;
    text.push(' ')?;
    push_report(alloc, text, fork.other)?;
    writeln!(text, " {least} {shown}")?;
    Ok(())
}

pub fn push_forks(alloc: Global, text: &mut String, forks: &[Fork<'_>]) -> Result<(), OutOfMemory>
    ensures { OnOk result (string_bytes text.new
        ≡ string_bytes text.old ++ flat_map fork_line (map fork_seen forks.now)) }
{
    for fork in forks {
        push_fork(alloc, text, fork)?;
    }
    Ok(())
}

#[tactic(auto, unfolding(crate::specs::Texts::said_text))]
fn push_said(alloc: Global, text: &mut String, said: &Said) -> Result<(), OutOfMemory>
    ensures { OnOk result (string_bytes text.new ≡ string_bytes text.old ++ said_text said.now) }
{
    push_place(alloc, text, said.journal, said.entry, &said.id)
}

/// A member's words for two ledgers.
pub fn push_twice(alloc: Global, text: &mut String, twice: &Equivocation) -> Result<(), OutOfMemory>
    ensures { OnOk result (string_bytes text.new ≡ string_bytes text.old ++ twice_line twice.now) }
{
    let (seq, member) = (twice.first.seq, twice.first.member.get());
    write!(text, "twice {seq} {member} ")?;
    push_said(alloc, text, &twice.first)?;
    text.push(' ')?;
    push_said(alloc, text, &twice.other)?;
    text.push('\n')?;
    Ok(())
}

/// How many frames are heard, and how many of them their senders gave.
pub fn push_heard(text: &mut String, tally: &Tally) -> Result<(), OutOfMemory>
    ensures { OnOk result (string_bytes text.new ≡ string_bytes text.old ++ heard_line tally.now) }
{
    let (heard, given) = (tally.heard, tally.given);
    writeln!(text, "heard {heard} given {given}")?;
    Ok(())
}

/// How many journals are wrong, how many pairs have two keys, how many reports differ, and how often a member said two
/// ledgers.
pub fn push_blame(
    text: &mut String,
    wrong: usize,
    mixed: usize,
    forks: usize,
    twice: usize,
) -> Result<(), OutOfMemory>
    ensures { OnOk result (string_bytes text.new ≡ string_bytes text.old ++ blame_line wrong mixed forks twice) }
{
    writeln!(text, "blame {wrong} {mixed} {forks} {twice}")?;
    Ok(())
}
