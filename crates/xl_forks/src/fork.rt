// Which reports differ.
ghost use Rattle.std.specs.Prelude.{◌≡◌, ◌<◌, ◌^◌, ◌++◌, map, option_to_list, IfOk, OnOk};
ghost use Rattle.std.specs.Map.Iter.{deref};
ghost use Rattle.xl_lists.specs.Quorums.{least_shown as least_shown_of};
ghost use Rattle.xl_forks.specs.Forks.{fork_of, fork_seen, forks_in, shown_by};
ghost use Rattle.xl_forks.specs.Kept.{forks_with, two_kept, AreSorted, IsKept};

use crate::reported::Reported;
use crate::words::{WordsByMember, said_two};
use std::alloc::Global;
use xl_base::{OutOfMemory, Seq};
use xl_lists::{List, bound};

/// Two reports of one sequence that name different ledgers.
#[derive(Clone, Copy)]
pub struct Fork<'a> {
    pub one: &'a Reported,
    /// It was read after the one.
    pub other: &'a Reported,
    /// The least number of members of both lists that said both ledgers, if the journals are right.
    pub least: u32,
    /// How many members of both lists are shown to have said two ledgers of the sequence.
    pub shown: u32,
}

/// All pairs of reports that differ, by rising sequence, then as the one was read, then as the other was. What was
/// reported comes as it was read.
pub fn forks<'a>(
    alloc: Global,
    words: &WordsByMember<'_>,
    reported: &'a [Reported],
) -> Result<Vec<Fork<'a>>, OutOfMemory>
    ensures { IfOk result (λ found. (said : _) → IsKept words.now said
        → map fork_seen found.items ≡ forks_in said reported.now) }
{
    let sorted = by_seq(alloc, reported)?;
    let mut found = Vec::new(alloc);
    for (place, one) in sorted.iter().enumerate() {
        push_forks_of(&mut found, words, one, &sorted[place + 1..])?;
    }
    Ok(found)
}

/// The reports by rising sequence, those of one sequence as they were read.
fn by_seq<'a>(alloc: Global, reported: &'a [Reported]) -> Result<Vec<&'a Reported>, OutOfMemory>
    ensures { IfOk result (λ sorted. AreSorted reported.now (map deref sorted.items)) }
{
    let mut sorted = Vec::new(alloc);
    for report in reported {
        sorted.push(report)?;
    }
    sorted.sort_by_key(|report| report.seq)?;
    Ok(sorted)
}

/// The forks of a report with those behind it, of which those of its sequence stand at the front.
fn push_forks_of<'a>(
    found: &mut Vec<Fork<'a>>,
    words: &WordsByMember<'_>,
    one: &'a Reported,
    behind: &[&'a Reported],
) -> Result<(), OutOfMemory>
    ensures forks { OnOk result (map fork_seen found.new.items
        ≡ map fork_seen found.old.items ++ forks_with (two_kept words.now) one.now (map deref behind.now)) }
    ensures number { one.now.seq < 2 ^ 32 }
{
    let seq = one.seq;
    for other in behind {
        if other.seq != seq {
            return Ok(());
        }
        push_fork(found, words, one, other)?;
    }
    Ok(())
}

/// The fork of two reports of one sequence, if they name different ledgers.
fn push_fork<'a>(
    found: &mut Vec<Fork<'a>>,
    words: &WordsByMember<'_>,
    one: &'a Reported,
    other: &'a Reported,
) -> Result<(), OutOfMemory>
    ensures { OnOk result (map fork_seen found.new.items
        ≡ map fork_seen found.old.items ++ option_to_list (fork_of (two_kept words.now) one.now other.now)) }
{
    if one.id != other.id {
        found.push(Fork {
            one,
            other,
            least: least_shown(&one.list, &other.list),
            shown: shown(words, one.seq, &one.list, &other.list),
        })?;
    }
    Ok(())
}

/// The least number of members of both lists that said both ledgers.
fn least_shown(a: &List, b: &List) -> u32
    ensures { result ≡ least_shown_of a.now b.now }
{
    (a.quorum() + b.quorum()).saturating_sub(bound(a, b, &[]))
}

/// How many members of both lists said two ledgers of the sequence.
fn shown(words: &WordsByMember<'_>, seq: Seq, a: &List, b: &List) -> u32
    ensures { result ≡ shown_by (two_kept words.now) seq a.now.members b.now.members }
{
    let mut count = 0;
    for &member in a.members() {
        if b.has(member) && said_two(words, seq, member) {
            count += 1;
        }
    }
    count
}
