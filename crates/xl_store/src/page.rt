ghost use Rattle.std.specs.Prelude.{◌≡◌, [], ◌∷◌, None, true, IfOk, OnErr};
ghost use Rattle.xl_core.specs.declared.event.CoreEvent.{CoreEvent};
ghost use Rattle.xl_store.specs.declared.entry.Entry.{Entry};
ghost use Rattle.xl_store.specs.Entries.{page_of};
ghost use Rattle.xl_store.specs.Pages.{on, has_node};

use crate::entry::{Entry, Saved};
use std::alloc::Global;
use std::collections::LinkedList;
use xl_base::OutOfMemory;
use xl_core::CoreEvent;

/// The entry of one turn. Its memory is taken before the turn.
#[derive(Drop)]
pub(crate) enum Page {
    /// It is to be kept, and has its node.
    Linked(LinkedList<Entry>),
    /// It is gone with its turn.
    Bare(Entry),
}

impl Page {
    /// A page with one event, of which no save is told. It has a node if it is to be kept.
    pub(crate) fn of(alloc: Global, event: CoreEvent, keeps: bool) -> Result<Page, OutOfMemory>
        ensures page { IfOk result (λ page. on page ≡ page_of event None) }
        ensures node { IfOk result (λ page. has_node page ≡ keeps) }
        ensures kept { OnErr result (keeps ≡ true) }
    {
        let entry = Entry {
            event,
            outcome: None,
        };
        if !keeps {
            return Ok(Page::Bare(entry));
        }
        let mut node = LinkedList::new(alloc);
        node.push_back(entry)?;
        Ok(Page::Linked(node))
    }

    /// Notes how the event's save was answered.
    pub(crate) fn note(&mut self, outcome: Option<Saved>)
        requires page { (event : CoreEvent) × (on self.old ≡ page_of event None) }
        ensures page { (event : CoreEvent) → on self.old ≡ page_of event None → on self.new ≡ page_of event outcome }
        ensures node { has_node self.new ≡ has_node self.old }
    {
        match self {
            Page::Linked(node) => note_in(node, outcome),
            Page::Bare(entry) => entry.outcome = outcome,
        }
    }

    /// Its entry.
    pub(crate) fn entry(&self) -> &Entry
        requires page { (entry : Entry) × (on self.now ≡ entry ∷ []) }
        ensures entry { on self.now ≡ result.now ∷ [] }
    {
        match self {
            Page::Linked(node) => match node.front() {
                Some(entry) => entry,
                None => unreachable!(),
            },
            Page::Bare(entry) => entry,
        }
    }
}

/// Notes in the node how the event's save was answered.
fn note_in(node: &mut LinkedList<Entry>, outcome: Option<Saved>)
    requires page { (event : CoreEvent) × (node.old ≡ page_of event None) }
    ensures page { (event : CoreEvent) → node.old ≡ page_of event None → node.new ≡ page_of event outcome }
{
    let Some(entry) = node.front_mut() else {
        unreachable!()
    };
    entry.outcome = outcome;
}
