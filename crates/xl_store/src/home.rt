ghost use Rattle.std.specs.Prelude.{◌≡◌, ◌+◌, ◌<◌, ◌≤◌, ◌^◌, length};
ghost use Rattle.xl_base.specs.Moments.{greatest_millis};
ghost use Rattle.xl_core.specs.declared.event.CoreEvent.TheVariants.{Issue, Timer};
ghost use Rattle.xl_core.specs.Answers.{Beats};
ghost use Rattle.xl_core.specs.Replies.{done_answer};
ghost use Rattle.xl_store.specs.Entries.{entry_of};
ghost use Rattle.xl_store.specs.Outcomes.{outcome_in, outcome_at};
ghost use Rattle.xl_store.specs.Retentions.{batch_in, how_many, is_something, kept_with, passed_with};
ghost use Rattle.xl_store.specs.Pages.{on, has_node};
ghost use Rattle.xl_store.specs.Homes.{AnswersHome};

use crate::page::Page;
use crate::retention::{Gone, Kept, link, link_or_pass};
use std::alloc::Global;
use xl_base::{LedgerId, Millis, Seq};
use xl_core::{Core, Refusal, TimerAnswer};
use xl_io::Keeper;
use xl_ledger::Branch;

/// A core and its keeper, with the entries so far if they are kept. A store has them behind one pointer, so that a turn
/// moves none.
#[derive(Drop)]
pub struct Home<B: Branch, K> {
    pub core: Core<B>,
    pub keeper: K,
    pub(crate) kept: Kept,
}

impl<B: Branch + Drop, K: Keeper> Home<B, K> {
    /// Lets the core's round go on; what is validated then is first saved with the keeper.
    pub(crate) fn timer(&mut self, now: Millis) -> TimerAnswer
        requires moment { now ≤ greatest_millis }
        ensures { AnswersHome K.held K.saves K.faults K.save_gives
            self.old (entry_of (Timer now) (outcome_at result)) (Beats result) self.new }
    {
        self.core.timer(now, &mut self.keeper)
    }

    /// Saves a sequence with the keeper and issues its validation.
    pub(crate) fn issue(
        &mut self,
        now: Millis,
        seq: Seq,
        id: LedgerId,
        full: bool,
    ) -> Result<(), Refusal>
        requires moment { now ≤ greatest_millis }
        ensures { AnswersHome K.held K.saves K.faults K.save_gives
            self.old (entry_of (Issue now seq id full) (outcome_in result)) (done_answer result) self.new }
    {
        self.core.issue(now, seq, id, full, &mut self.keeper)
    }

    /// Keeps the page's entry behind the others, or hands it back if none is kept. If reports are taken by it, and entries
    /// are handed on then, they leave.
    pub(crate) fn keep(&mut self, alloc: Global, page: Page, takes: bool) -> Gone
        requires node { has_node page ≡ is_something self.old.kept }
        requires room { how_many self.old.kept + length (on page) < 2 ^ 63 }
        ensures core { self.new.core ≡ self.old.core }
        ensures keeper { self.new.keeper ≡ self.old.keeper }
        ensures kept { self.new.kept ≡ kept_with self.old.kept takes (on page) }
        ensures gone { batch_in result ≡ passed_with self.old.kept takes (on page) }
    {
        match page {
            Page::Linked(node) => match &mut self.kept {
                Kept::Nothing => Gone::Nothing,
                Kept::Whole(kept) => {
                    link(kept, node);
                    Gone::Nothing
                }
                Kept::Passing(first, kept) => link_or_pass(alloc, first, kept, node, takes),
            },
            Page::Bare(entry) => Gone::Entry(entry),
        }
    }
}
