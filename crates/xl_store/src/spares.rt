// Pages for the end of a node, for which there may be no memory any more.
ghost use Rattle.std.specs.Prelude.{◌≡◌, true, None, IfSome};
ghost use Rattle.xl_core.specs.declared.event.CoreEvent.TheVariants.{Stop};
ghost use Rattle.xl_store.specs.Entries.{page_of};
ghost use Rattle.xl_store.specs.Pages.{on, has_node};

use crate::entry::Entry;
use crate::page::Page;
use std::alloc::Global;
use std::collections::LinkedList;
use std::sync::atomic::{AtomicBool, Ordering};
use std::sync::{Mutex, Wait};
use xl_base::{MOST_MEMBERS, OutOfMemory};
use xl_core::CoreEvent;

/// How many pages are spared: one for the stop, and one for each member's worker to hear of it.
const MOST: usize = MOST_MEMBERS + 1;

/// A page with its node, for an event that isn't known yet.
#[derive(Drop)]
struct Spare {
    node: LinkedList<Entry>,
    ghost blank: { node ≡ page_of Stop None },
}

/// Pages whose memory was taken when the store opened.
#[derive(Drop)]
pub(crate) struct Spares {
    pages: Mutex<Vec<Spare>>,
    is_told: AtomicBool,
}

impl Spares {
    /// As many as are needed if entries are kept, and else none: an entry that isn't kept takes no memory.
    pub(crate) fn new(alloc: Global, keeps: bool) -> Result<Spares, OutOfMemory> {
        let mut pages = Vec::new(alloc);
        if keeps {
            for _ in 0..MOST {
                pages.push(Spare::new(alloc)?)?;
            }
        }
        Ok(Spares {
            pages: Mutex::new(pages),
            is_told: AtomicBool::new(false),
        })
    }

    /// Notes that the node was told to stop.
    pub(crate) fn tell(&self) {
        self.is_told.store(true, Ordering::SeqCst);
    }

    /// Whether it was.
    pub(crate) fn is_told(&self) -> bool {
        self.is_told.load(Ordering::SeqCst)
    }

    /// A page with one event, if one is left.
    pub(crate) fn take<W: Wait>(&self, rt: &W, event: CoreEvent) -> Option<Page>
        ensures page { IfSome result (λ page. on page ≡ page_of event None) }
        ensures node { IfSome result (λ page. has_node page ≡ true) }
    {
        let mut pages = self.pages.lock(rt);
        let spare = pages.pop()?;
        Some(spare.page(event))
    }
}

impl Spare {
    fn new(alloc: Global) -> Result<Spare, OutOfMemory> {
        let mut node = LinkedList::new(alloc);
        node.push_back(Entry {
            event: CoreEvent::Stop,
            outcome: None,
        })?;
        Ok(Spare { node })
    }

    fn page(self, event: CoreEvent) -> Page
        ensures page { on result ≡ page_of event None }
        ensures node { has_node result ≡ true }
    {
        let Spare { mut node } = self;
        let Some(entry) = node.front_mut() else {
            unreachable!()
        };
        *entry = Entry {
            event,
            outcome: None,
        };
        Page::Linked(node)
    }
}
