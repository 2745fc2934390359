ghost use Rattle.std.specs.Prelude.{◌≡◌, ◌+◌, ◌<◌, ◌^◌, ◌++◌, [], length, Some, None, if◌then◌else◌};
ghost use Rattle.xl_store.specs.Retentions.{batch_in, kept_of, left_in, passed_on};

use crate::entry::Entry;
use crate::journal::Entries;
use std::alloc::Global;
use std::collections::LinkedList;
use std::mem;

/// Which entries a store keeps in memory.
#[derive(Clone, Copy, PartialEq, Eq)]
pub enum Retention {
    /// None: its memory doesn't grow by its turns.
    Nothing,
    /// All of them.
    Whole,
    /// Those since reports were taken last. Whoever takes reports is handed them.
    Passing,
}

/// Entries that stand one after the other in a journal.
#[derive(Drop)]
pub struct Batch {
    /// The place of the first.
    pub first: u64,
    pub entries: Entries,
}

/// What is kept, oldest first.
#[derive(Drop)]
pub(crate) enum Kept {
    Nothing,
    Whole(LinkedList<Entry>),
    /// The entries from a place on.
    Passing(u64, LinkedList<Entry>),
}

/// What leaves a store behind a turn.
#[derive(Drop)]
pub(crate) enum Gone {
    Nothing,
    /// The turn's own entry, if none is kept. It is freed there.
    Entry(Entry),
    /// What is handed to whoever took reports.
    Batch(Batch),
}

impl Kept {
    /// Room for the entries to come, if some are to be kept.
    pub(crate) fn new(alloc: Global, retention: Retention) -> Kept
        ensures { result ≡ kept_of retention [] }
    {
        match retention {
            Retention::Nothing => Kept::Nothing,
            Retention::Whole => Kept::Whole(LinkedList::new(alloc)),
            Retention::Passing => Kept::Passing(0, LinkedList::new(alloc)),
        }
    }

    /// What is left, to be read.
    pub(crate) fn left(self) -> Option<Batch>
        ensures { result ≡ left_in self }
    {
        match self {
            Kept::Nothing => None,
            Kept::Whole(rest) => Some(batch_from(0, rest)),
            Kept::Passing(first, rest) => Some(batch_from(first, rest)),
        }
    }
}

impl Gone {
    /// What is handed on.
    pub(crate) fn batch(self) -> Option<Batch>
        ensures { result ≡ batch_in self }
    {
        match self {
            Gone::Nothing => None,
            Gone::Entry(_) => None,
            Gone::Batch(batch) => Some(batch),
        }
    }
}

/// These entries, from a place on.
fn batch_from(first: u64, rest: LinkedList<Entry>) -> Batch
    ensures { result ≡ record { first = first; entries = rest } }
{
    Batch {
        first,
        entries: Entries { rest },
    }
}

/// Links the node behind the others.
pub(crate) fn link(kept: &mut LinkedList<Entry>, mut node: LinkedList<Entry>)
    requires room { length kept.old + length node < 2 ^ 63 }
    ensures { kept.new ≡ kept.old ++ node }
{
    let Ok(()) = kept.append(&mut node) else {
        unreachable!()
    };
    node.destroy_empty();
}

/// Links the node behind the others, which stand from a place on. If reports are taken by it, all of them are handed on.
pub(crate) fn link_or_pass(
    alloc: Global,
    first: &mut u64,
    kept: &mut LinkedList<Entry>,
    node: LinkedList<Entry>,
    takes: bool,
) -> Gone
    requires room { first.old + length kept.old + length node < 2 ^ 63 }
    ensures first { first.new ≡ (if takes then first.old + (length kept.old + length node) else first.old) }
    ensures kept { kept.new ≡ (if takes then [] else kept.old ++ node) }
    ensures gone { batch_in result ≡ passed_on takes first.old (kept.old ++ node) }
{
    link(kept, node);
    if !takes {
        return Gone::Nothing;
    }
    let rest = mem::replace(kept, LinkedList::new(alloc));
    let batch = batch_from(*first, rest);
    *first += batch.entries.len();
    Gone::Batch(batch)
}
