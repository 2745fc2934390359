// What entries show, gathered as they are read.
ghost use Rattle.std.specs.Prelude.{◌≡◌, ◌++◌, OnOk, option_copied};
ghost use Rattle.xl_blame.specs.Gathering.{heard_at, noted_at, nothing_gathered, reported_at, said_at, with_entry, words_at};
ghost use Rattle.xl_blame.specs.States.{gathered_seen};

use std::alloc::Global;
use xl_base::OutOfMemory;
use xl_core::Report;
use xl_forks::{Reported, Said};
use xl_given::{NotedFrames, push_each};
use xl_lists::{List, SaidLedger};
use xl_shown::{Heard, Shown};

/// A validation that an entry of a journal shows.
fn push_said(
    said: &mut Vec<Said>,
    journal: u32,
    entry: u64,
    word: &Option<SaidLedger>,
) -> Result<(), OutOfMemory>
    ensures { OnOk result (said.new.items ≡ said.old.items ++ said_at journal entry word.now) }
{
    if let Some(word) = word {
        said.push(Said {
            seq: word.seq,
            member: word.member,
            journal,
            entry,
            id: word.id,
        })?;
    }
    Ok(())
}

fn push_heard(
    said: &mut Vec<Said>,
    journal: u32,
    entry: u64,
    heard: &Option<Heard>,
) -> Result<(), OutOfMemory>
    ensures { OnOk result (said.new.items ≡ said.old.items ++ heard_at journal entry heard.now) }
{
    match heard {
        Some(heard) => push_said(said, journal, entry, &heard.said),
        None => Ok(()),
    }
}

/// All that it shows, the one that is heard first.
fn push_words(
    said: &mut Vec<Said>,
    journal: u32,
    entry: u64,
    shown: &Shown,
) -> Result<(), OutOfMemory>
    ensures { OnOk result (said.new.items ≡ said.old.items ++ words_at journal entry shown.now) }
{
    push_heard(said, journal, entry, &shown.heard)?;
    push_said(said, journal, entry, &shown.issued)
}

/// The report that arises in it, under the list in force then.
fn push_reported(
    reported: &mut Vec<Reported>,
    journal: u32,
    entry: u64,
    report: &Option<Report>,
    list: Option<&List>,
) -> Result<(), OutOfMemory>
    ensures { OnOk result (reported.new.items
        ≡ reported.old.items ++ reported_at journal entry report.now (option_copied list.entry)) }
{
    let Some(report) = report else {
        return Ok(());
    };
    if let Some(list) = list {
        reported.push(Reported {
            seq: report.seq,
            journal,
            entry,
            id: report.id,
            list: list.copy(),
        })?;
    }
    Ok(())
}

/// The frame that is heard in it.
fn push_noted(
    noted: &mut NotedFrames,
    journal: u32,
    entry: u64,
    shown: &Shown,
) -> Result<(), OutOfMemory>
    ensures { OnOk result (noted.new ≡ noted.old ++ noted_at journal entry shown.now.frame shown.now.heard) }
{
    match &shown.heard {
        Some(heard) => noted.push(heard.from, journal, entry, shown.frame.as_slice()),
        None => Ok(()),
    }
}

/// What the entries of all journals show.
#[derive(Drop)]
pub struct Gathered {
    pub said: Vec<Said>,
    pub reported: Vec<Reported>,
    /// The frames that were heard.
    pub heard: NotedFrames,
    /// The frames that drains gave.
    pub given: NotedFrames,
}

impl Gathered {
    /// Before the first entry.
    pub fn new(alloc: Global) -> Gathered
        ensures { gathered_seen result ≡ nothing_gathered }
    {
        Gathered {
            said: Vec::new(alloc),
            reported: Vec::new(alloc),
            heard: NotedFrames::new(alloc),
            given: NotedFrames::new(alloc),
        }
    }

    /// What an entry of a journal shows, both counted from 1, is added. This list is in force behind it.
    pub fn push(
        &mut self,
        journal: u32,
        entry: u64,
        shown: &Shown,
        list: Option<&List>,
    ) -> Result<(), OutOfMemory>
        ensures { OnOk result (gathered_seen self.new
            ≡ with_entry (gathered_seen self.old) journal entry shown.now (option_copied list.entry)) }
    {
        push_words(&mut self.said, journal, entry, shown)?;
        push_reported(&mut self.reported, journal, entry, &shown.report, list)?;
        push_noted(&mut self.heard, journal, entry, shown)?;
        push_each(
            &mut self.given,
            shown.me,
            journal,
            entry,
            shown.given.as_slice(),
        )
    }
}
