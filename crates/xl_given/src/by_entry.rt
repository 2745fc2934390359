// Who gave what was heard, by where it was heard.
ghost use Rattle.std.specs.Prelude.{IfOk, OnOk};
ghost use Rattle.xl_given.specs.Kept.{IsFirstKept, IsKept, IsKeptByEntry};

use crate::givers::{Giver, GiversByFrame, giver_of};
use crate::{Noted, NotedFrames};
use std::alloc::Global;
use std::collections::BTreeMap;
use xl_base::OutOfMemory;

/// The first giver of what was heard in an entry, by the journal and the entry, both counted from 1. An entry has none
/// if nothing was heard in it, or if the sender didn't give it.
pub type GiversByEntry = BTreeMap<(u32, u64), Giver>;

/// The first givers of all that was heard.
pub fn givers_by_entry<'a>(
    alloc: Global,
    heard: &'a NotedFrames,
    givers: &GiversByFrame<'a>,
) -> Result<GiversByEntry, OutOfMemory>
    ensures { (given : _) → IsKept givers.now given → IfOk result (λ found. IsKeptByEntry found given heard.now) }
{
    let mut found: GiversByEntry = BTreeMap::new(alloc);
    for place in 0..heard.len() {
        let noted = heard.at(place);
        let giver = giver_of(givers, noted.member, noted.frame);
        keep_first(&mut found, noted.journal, noted.entry, giver)?;
    }
    Ok(found)
}

/// An entry gets a giver, unless it has one.
fn keep_first(
    found: &mut GiversByEntry,
    journal: u32,
    entry: u64,
    giver: Option<Giver>,
) -> Result<(), OutOfMemory>
    ensures { OnOk result (IsFirstKept found.old found.new journal entry giver) }
{
    let Some(giver) = giver else {
        return Ok(());
    };
    let key = (journal, entry);
    let first = found.get(&key).copied().unwrap_or(giver);
    found.insert(key, first)?;
    Ok(())
}
