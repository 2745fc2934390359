ghost use Rattle.std.specs.Prelude.{◌≡◌, ◌++◌, ◌∷◌, [], length, None, IfOk, IfErr, OnErr};
ghost use Rattle.xl_store.specs.declared.entry.Entry.{Entry};
ghost use Rattle.xl_turns.specs.Histories.{IsLegal};
ghost use Rattle.xl_turns.specs.Knowing.{after_turn};
ghost use Rattle.xl_turns.specs.Passes.{known, knows, opening, HasTurn};
ghost use Rattle.xl_core.specs.declared.event.CoreEvent.{CoreEvent};
ghost use Rattle.xl_core.specs.declared.event.CoreEvent.TheVariants.{Stop, Stopped};
ghost use Rattle.xl_store.specs.Entries.{page_of};
ghost use Rattle.xl_store.specs.Retentions.{keeps_any, passed_by};
ghost use Rattle.xl_store.specs.Pages.{on, has_node};
ghost use Rattle.xl_store.specs.Homes.{LeadsHome};
ghost use Rattle.xl_store.specs.Stores.{retention_of, IsOf, Begun, Ends, Refused};

use super::{Pass, Store, StoreEnd};
use crate::entry::Entry;
use crate::home::Home;
use crate::page::Page;
use crate::retention::{Batch, Retention};
use std::sync::Wait;
use xl_base::OutOfMemory;
use xl_core::CoreEvent;
use xl_io::Keeper;
use xl_ledger::Branch;
use xl_turns::{Full, Turn};

impl<B: Branch + Drop, K: Keeper + Drop> Store<B, K> {
    /// Takes the memory for the entry, and then a turn.
    pub(crate) fn enter<W: Wait>(
        &self,
        rt: &W,
        pass: &mut Pass,
        event: CoreEvent,
    ) -> Result<(Turn<Box<Home<B, K>>, Entry>, Page), StoreEnd>
        requires pass { IsOf self.now pass.old }
        ensures turn { IfOk result (λ begun. HasTurn self.now.lock pass.new begun.0) }
        ensures begun { IfOk result (λ begun. Begun K.held K.saves K.faults K.save_gives
            self.now pass.old event begun.0 begun.1) }
        ensures pass { OnErr result (IsOf self.now pass.new) }
        ensures refused { IfErr result (λ end. Refused self.now pass.old end pass.new) }
    {
        let page = Page::of(self.alloc, event, self.keeps_any())?;
        self.enter_with(rt, pass, page)
    }

    /// Takes a turn for an entry that has its memory.
    pub(crate) fn enter_with<W: Wait>(
        &self,
        rt: &W,
        pass: &mut Pass,
        page: Page,
    ) -> Result<(Turn<Box<Home<B, K>>, Entry>, Page), StoreEnd>
        requires pass { IsOf self.now pass.old }
        ensures turn { IfOk result (λ begun. HasTurn self.now.lock pass.new begun.0) }
        ensures begun { IfOk result (λ begun. (event : CoreEvent)
            → on page ≡ page_of event None → has_node page ≡ keeps_any (retention_of self.now)
            → Begun K.held K.saves K.faults K.save_gives self.now pass.old event begun.0 begun.1) }
        ensures pass { OnErr result (IsOf self.now pass.new) }
        ensures refused { IfErr result (λ end. Refused self.now pass.old end pass.new) }
    {
        match self.lock.enter(rt, pass) {
            Ok(turn) => Ok((turn, page)),
            Err(Full(limit)) => Err(StoreEnd::StoreFull(limit)),
        }
    }

    /// The page of a stop. If there is no memory, it is one that was spared.
    pub(crate) fn page_of_stop<W: Wait>(&self, rt: &W) -> Result<Page, OutOfMemory>
        ensures page { IfOk result (λ page. on page ≡ page_of Stop None) }
        ensures node { IfOk result (λ page. has_node page ≡ keeps_any (retention_of self.now)) }
    {
        match Page::of(self.alloc, CoreEvent::Stop, self.keeps_any()) {
            Ok(page) => Ok(page),
            Err(_) => self.spares.take(rt, CoreEvent::Stop).ok_or(OutOfMemory),
        }
    }

    /// The page of the question whether the node is to stop. Once it was told to, it is spared like the stop's.
    pub(crate) fn page_of_question<W: Wait>(&self, rt: &W) -> Result<Page, OutOfMemory>
        ensures page { IfOk result (λ page. on page ≡ page_of Stopped None) }
        ensures node { IfOk result (λ page. has_node page ≡ keeps_any (retention_of self.now)) }
    {
        match Page::of(self.alloc, CoreEvent::Stopped, self.keeps_any()) {
            Ok(page) => Ok(page),
            Err(_) if self.spares.is_told() => {
                self.spares.take(rt, CoreEvent::Stopped).ok_or(OutOfMemory)
            }
            Err(none) => Err(none),
        }
    }

    /// Whether it keeps any entry.
    fn keeps_any(&self) -> bool
        ensures { result ≡ keeps_any (retention_of self.now) }
    {
        self.retention != Retention::Nothing
    }

    /// Ends the turn: the page's entry stands in the journal, and is kept if entries are. Those that are handed on come
    /// back.
    pub(crate) fn finish(
        &self,
        pass: &mut Pass,
        mut turn: Turn<Box<Home<B, K>>, Entry>,
        page: Page,
    ) -> Option<Batch>
        requires turn { HasTurn self.now.lock pass.old turn }
        requires ends { Ends K.held K.saves K.faults K.save_gives self.now turn page }
        ensures pass { IsOf self.now pass.new }
        ensures legal { IsLegal (LeadsHome K.held K.saves K.faults K.save_gives)
            (opening self.now.lock) (known pass.new).seen }
        ensures known { known pass.new
            ≡ after_turn (knows turn) (length turn.journal) (turn.journal ++ on page) }
        ensures handed { (e : Entry) → on page ≡ e ∷ [] → result ≡ passed_by (retention_of self.now) turn.journal e }
    {
        let entry = page.entry();
        let takes = entry.takes_reports();
        let written = turn.written(entry);
        let gone = turn.object.keep(self.alloc, page, takes);
        self.lock.finish(pass, turn, written);
        // What isn't kept is freed behind the turn.
        gone.batch()
    }
}
