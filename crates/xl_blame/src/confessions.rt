// What the journals of a named member itself say of the two ledgers.
ghost use Rattle.std.specs.Prelude.{◌≡◌, ◌++◌, ◌≤◌, OnOk, length};
ghost use Rattle.std.specs.List.{flat_map};
ghost use Rattle.std.specs.String.{string_bytes};
ghost use Rattle.xl_blame.specs.Confessions.{answer_text, answers_text, confessed_line, denied_line, giver_in, journal_of as journal_among, named_text, own_entry as own_entry_of, is_own as is_own_among, word_text};

use crate::texts::{push_id, push_twice};
use std::alloc::Global;
use std::fmt::Write;
use xl_base::{NodeNo, OutOfMemory};
use xl_forks::{Equivocation, Said};
use xl_given::{Giver, GiversByEntry};
use xl_shown::End;

/// The first journal of a node, counted from 1.
fn journal_of(ended: &[End], node: NodeNo) -> Option<u32>
    requires few { length ended.now ≤ 1000 }
    ensures { result ≡ journal_among ended.now node }
{
    for place in 0..ended.len() {
        if ended[place].keys.keys().me() == node {
            return Some(place as u32 + 1);
        }
    }
    None
}

/// Whether a word stands in a journal of its own member, which issued it there.
fn is_own(ended: &[End], word: &Said) -> bool
    ensures { result ≡ is_own_among ended.now word.now }
{
    let place = (word.journal as usize).saturating_sub(1);
    match ended.get(place) {
        Some(end) => end.keys.keys().me() == word.member,
        None => false,
    }
}

/// The entry of the member's own journals that says the word.
fn own_entry(ended: &[End], givers: &GiversByEntry, word: &Said) -> Option<Giver>
    ensures { result ≡ own_entry_of ended.now (giver_in givers.now) word.now }
{
    let (journal, entry) = (word.journal, word.entry);
    if is_own(ended, word) {
        return Some(Giver { journal, entry });
    }
    givers.get(&(journal, entry)).copied()
}

/// Of which sequence, who, and which ledger.
#[tactic(auto, unfolding(crate::specs::Confessions::word_text))]
fn push_word(alloc: Global, text: &mut String, word: &Said) -> Result<(), OutOfMemory>
    ensures { OnOk result (string_bytes text.new ≡ string_bytes text.old ++ word_text word.now) }
{
    let (seq, member) = (word.seq, word.member.get());
    write!(text, "{seq} {member} ")?;
    push_id(alloc, text, &word.id)
}

/// The member's own journals say it.
fn push_confessed(
    alloc: Global,
    text: &mut String,
    word: &Said,
    own: &Giver,
) -> Result<(), OutOfMemory>
    ensures { OnOk result (string_bytes text.new ≡ string_bytes text.old ++ confessed_line word.now own.now) }
{
    text.push_str("confessed ")?;
    push_word(alloc, text, word)?;
    let (journal, entry) = (own.journal, own.entry);
    writeln!(text, " {journal} {entry}")?;
    Ok(())
}

/// None of them does. This is the first.
fn push_denied(
    alloc: Global,
    text: &mut String,
    word: &Said,
    journal: u32,
) -> Result<(), OutOfMemory>
    ensures { OnOk result (string_bytes text.new ≡ string_bytes text.old ++ denied_line word.now journal) }
{
    text.push_str("denied ")?;
    push_word(alloc, text, word)?;
    writeln!(text, " {journal}")?;
    Ok(())
}

/// What they say of a word, if this is the first of them.
fn push_answer(
    alloc: Global,
    text: &mut String,
    journal: u32,
    word: &Said,
    own: Option<Giver>,
) -> Result<(), OutOfMemory>
    ensures { OnOk result (string_bytes text.new ≡ string_bytes text.old ++ answer_text journal word.now own) }
{
    match own {
        Some(own) => push_confessed(alloc, text, word, &own),
        None => push_denied(alloc, text, word, journal),
    }
}

/// What they say of both words, if one of them was read.
fn push_answers(
    alloc: Global,
    text: &mut String,
    ended: &[End],
    givers: &GiversByEntry,
    twice: &Equivocation,
) -> Result<(), OutOfMemory>
    requires few { length ended.now ≤ 1000 }
    ensures { OnOk result (string_bytes text.new
        ≡ string_bytes text.old ++ answers_text ended.now (giver_in givers.now) twice.now) }
{
    let Some(journal) = journal_of(ended, twice.first.member) else {
        return Ok(());
    };
    let (first, other) = (&twice.first, &twice.other);
    push_answer(alloc, text, journal, first, own_entry(ended, givers, first))?;
    push_answer(alloc, text, journal, other, own_entry(ended, givers, other))
}

/// The words for two ledgers of all members that are named, with what their own journals say of them.
pub fn push_all_named(
    alloc: Global,
    text: &mut String,
    ended: &[End],
    givers: &GiversByEntry,
    all: &[Equivocation],
) -> Result<(), OutOfMemory>
    requires few { length ended.now ≤ 1000 }
    ensures { OnOk result (string_bytes text.new
        ≡ string_bytes text.old ++ flat_map (named_text ended.now (giver_in givers.now)) all.now) }
{
    for twice in all {
        push_twice(alloc, text, twice)?;
        push_answers(alloc, text, ended, givers, twice)?;
    }
    Ok(())
}
