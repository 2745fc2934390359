// What is written behind the last journal.
ghost use Rattle.std.specs.Prelude.{◌≡◌, ◌++◌, ◌≤◌, IfOk, OnOk, count_by, length, map};
ghost use Rattle.std.specs.String.{string_bytes};
ghost use Rattle.xl_forks.specs.Equivocations.{equivocations_in};
ghost use Rattle.xl_forks.specs.Forks.{forks_in};
ghost use Rattle.xl_given.specs.Given.{count_given as count_given_of};
ghost use Rattle.xl_given.specs.Kept.{IsKeptByEntry};
ghost use Rattle.xl_blame.specs.Confessions.{giver_in, named_text};
ghost use Rattle.xl_blame.specs.States.{gathered_seen};
ghost use Rattle.xl_blame.specs.Summary.{is_wrong as is_wrong_end, last_line, last_verdict, mixed_text, shown_text, summary_of, verdict_of, wrongs_in};

use crate::confessions::push_all_named;
use crate::gathering::Gathered;
use crate::networks::{Mixed, mixed_journals};
use crate::texts::{push_all_keys, push_blame, push_forks, push_heard};
use std::alloc::Global;
use xl_base::OutOfMemory;
use xl_forks::{Reported, Said, equivocations, forks, words_of};
use xl_given::{GiversByEntry, NotedFrames, count_given, givers_by_entry, givers_of};
use xl_lines::Verdict;
use xl_shown::{End, Judged};

/// How many frames are heard in all journals, and how many of these stand in a drain of their sender's journals.
#[derive(Clone, Copy)]
pub struct Tally {
    pub heard: usize,
    pub given: usize,
}

/// What the senders' journals say of the frames that were heard.
#[derive(Drop)]
struct Answered {
    tally: Tally,
    givers: GiversByEntry,
}

/// The frames themselves are let go.
fn answered_by(
    alloc: Global,
    heard: NotedFrames,
    given: NotedFrames,
) -> Result<Answered, OutOfMemory>
    ensures counted { IfOk result (λ answered. answered.tally.heard ≡ length heard) }
    ensures given { IfOk result (λ answered. answered.tally.given ≡ count_given_of given heard) }
    ensures givers { IfOk result (λ answered. IsKeptByEntry answered.givers given heard) }
{
    let givers = givers_of(alloc, &given)?;
    let tally = Tally {
        heard: heard.len(),
        given: count_given(&heard, &givers),
    };
    Ok(Answered {
        tally,
        givers: givers_by_entry(alloc, &heard, &givers)?,
    })
}

/// Whether an entry of a journal isn't right.
fn is_wrong(end: &End) -> bool
    ensures { result ≡ is_wrong_end end.now }
{
    matches!(end.judged, Judged::No(_))
}

/// How many journals have an entry that isn't right.
fn wrongs(ended: &[End]) -> usize
    ensures { result ≡ wrongs_in ended.now }
{
    ended.iter().filter(|end| is_wrong(end)).count()
}

/// The last line.
fn push_last(
    text: &mut String,
    wrong: usize,
    forks: usize,
    twice: usize,
) -> Result<Verdict, OutOfMemory>
    ensures text { OnOk result (string_bytes text.new ≡ string_bytes text.old ++ last_line wrong forks twice) }
    ensures verdict { IfOk result (λ verdict. verdict ≡ last_verdict wrong forks twice) }
{
    if wrong == 0 && forks == 0 && twice == 0 {
        text.push_str("clear\n")?;
        return Ok(Verdict::Good);
    }
    push_blame(text, wrong, 0, forks, twice)?;
    Ok(Verdict::Found)
}

/// Journals that are not of one network name nobody: members of two networks may share a number.
fn push_mixed(
    text: &mut String,
    wrong: usize,
    mixed: &[Mixed],
    tally: &Tally,
) -> Result<Verdict, OutOfMemory>
    ensures text { OnOk result (string_bytes text.new ≡ string_bytes text.old ++ mixed_text wrong mixed.now tally.now) }
    ensures verdict { IfOk result (λ verdict. verdict ≡ Verdict.Found) }
{
    push_all_keys(text, mixed)?;
    push_heard(text, tally)?;
    push_blame(text, wrong, mixed.len(), 0, 0)?;
    Ok(Verdict::Found)
}

/// What journals of one network show.
fn push_shown(
    alloc: Global,
    text: &mut String,
    ended: &[End],
    said: &[Said],
    reported: &[Reported],
    answered: &Answered,
) -> Result<Verdict, OutOfMemory>
    requires few { length ended.now ≤ 1000 }
    ensures text { OnOk result (string_bytes text.new
        ≡ string_bytes text.old
        ++ shown_text (wrongs_in ended.now) (forks_in said.now reported.now)
        (named_text ended.now (giver_in answered.now.givers)) (equivocations_in said.now) answered.now.tally) }
    ensures verdict { IfOk result (λ verdict. verdict
        ≡ last_verdict (wrongs_in ended.now) (length (forks_in said.now reported.now)) (length (equivocations_in said.now))) }
{
    let words = words_of(alloc, said)?;
    let forks = forks(alloc, &words, reported)?;
    let twice = equivocations(alloc, &words)?;
    push_forks(alloc, text, &forks)?;
    push_all_named(alloc, text, ended, &answered.givers, &twice)?;
    push_heard(text, &answered.tally)?;
    push_last(text, wrongs(ended), forks.len(), twice.len())
}

/// Behind the last journal.
pub fn push_summary(
    alloc: Global,
    text: &mut String,
    ended: &[End],
    shown: Gathered,
) -> Result<Verdict, OutOfMemory>
    requires few { length ended.now ≤ 1000 }
    ensures text { OnOk result (string_bytes text.new
        ≡ string_bytes text.old ++ summary_of ended.now (gathered_seen shown)) }
    ensures verdict { IfOk result (λ verdict. verdict ≡ verdict_of ended.now (gathered_seen shown)) }
{
    let mixed = mixed_journals(alloc, ended)?;
    let answered = answered_by(alloc, shown.heard, shown.given)?;
    if mixed.is_empty() {
        return push_shown(alloc, text, ended, &shown.said, &shown.reported, &answered);
    }
    push_mixed(text, wrongs(ended), &mixed, &answered.tally)
}
