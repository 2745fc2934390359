// Who said two ledgers of one sequence.
ghost use Rattle.std.specs.Prelude.{◌≡◌, ◌++◌, filter_map, option_to_list, All, Some, IfOk, OnOk};
ghost use Rattle.std.specs.BTreeMap.{get, IsOrdered};
ghost use Rattle.xl_forks.specs.Equivocations.{equivocations_in};
ghost use Rattle.xl_forks.specs.Kept.{by_both, equivocation_kept, words_seen, IsKept};

use crate::said::Said;
use crate::words::{Words, WordsByMember};
use std::alloc::Global;
use xl_base::OutOfMemory;

/// The first entry that shows a member's word for a ledger of a sequence, and the first that shows its word for another.
#[derive(Clone, Copy, PartialEq, Eq)]
pub struct Equivocation {
    pub first: Said,
    pub other: Said,
}

/// Those of all members and sequences, by rising sequence, then by rising member.
pub fn equivocations(
    alloc: Global,
    words: &WordsByMember<'_>,
) -> Result<Vec<Equivocation>, OutOfMemory>
    ensures { (said : _) → IsKept words.now said → IfOk result (λ found. found.items ≡ equivocations_in said) }
{
    equivocations_among(alloc, words)
}

/// Those among the words that are kept, in their order.
fn equivocations_among(
    alloc: Global,
    words: &WordsByMember<'_>,
) -> Result<Vec<Equivocation>, OutOfMemory>
    ensures value { IfOk result (λ found.
        found.items ≡ filter_map (λ e. equivocation_kept (words_seen e.1)) words.now.entries) }
    ensures ordered { IsOrdered by_both words.now }
    ensures each { All (λ e. get by_both words.now e.0 ≡ Some e.1) words.now.entries }
{
    let mut found = Vec::new(alloc);
    for (_, spoken) in words.iter() {
        push_equivocation(&mut found, spoken)?;
    }
    Ok(found)
}

/// The equivocation that these words are, if the member said two ledgers.
fn push_equivocation(found: &mut Vec<Equivocation>, spoken: &Words<'_>) -> Result<(), OutOfMemory>
    ensures { OnOk result (found.new.items
        ≡ found.old.items ++ option_to_list (equivocation_kept (words_seen spoken.now))) }
{
    if let Some(other) = spoken.other {
        found.push(Equivocation {
            first: *spoken.first,
            other: *other,
        })?;
    }
    Ok(())
}
